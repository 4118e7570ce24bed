// The readers of the site, of picks and of steps, and of a case, which is a question and a site: what was read, or why and where it is
// refused (1 to 3, 7, 19, 9, 18, 10).
#![tactic(auto)]

ghost use Rattle.std.specs.Prelude.{◌≡◌, true, false, List, ℕ, ◌+◌, ◌*◌, ◌≤◌, length, set as «set_at»};
ghost use Rattle.bits.specs.Table.{bit};
ghost use Rattle.definitions.specs.Limits.{CaseLimits};
ghost use Rattle.definitions.specs.Lists.{all, below};
ghost use Rattle.definitions.specs.Sheet.Sheets.{Label, Member, has_member, read_site, read_picks, read_steps};
ghost use Rattle.read_line.specs.Entries.{InText};
ghost use Rattle.read_names.specs.Signatures.{SoundSignature, with_arrays, rels_of, types_of, chosen_of};
ghost use Rattle.read_tuples.specs.Labels.{LabelsAre, NoLabels};
ghost use Rattle.read_tuples.specs.Members.{MembersAre, NoMembers};
ghost use Rattle.read_tuples.specs.Marks.{Roomy};
ghost use Rattle.read_sheets.specs.Reading.{SizeRoom, FactsRoom, PicksRoom, FewArities, size_turn, label_out, member_out, end_of, SiteTurned, GotSite, SiteRead, PickTurned, GotPicks, PicksRead, step_of, RoomFor, StepsRead, Cleared};
ghost use Rattle.definitions.specs.Reply.Outcome.{read_filed, read_case};
ghost use Rattle.read_sheets.specs.Opening.{FiledRead, CaseRead};

use read_line::{Entry, Places};
use read_names::Signature;
use read_question::Span;
use read_tuples::{MemberLine, TupleLine};
use refusal::{Cause, Refusal};

// The most steps that a text has: a step line has at least 7 bytes.
pub const STEPS: usize = read_text::LIMIT / 7;

// Most texts are short: a list of FEW numbers holds the steps of a text of SHORT bytes, one of MANY those of a text of LONG bytes, and
// no longer list is cleared for them.
pub const FEW: usize = 512;

pub const SHORT: usize = 7 * FEW;

pub const MANY: usize = 9362;

pub const LONG: usize = 7 * MANY;

// How many numbers hold the labels of a site's elements: two for each of 64, the span of its label in the site's text, both 0 where
// it has none; and 256 for hints where a name stands.
pub const LABELS: usize = 384;

// What was read of a site so far: its size, 0 for none, whether there was a member, and whether there was a fact.
#[derive(Clone, Copy)]
struct Stage {
    n: usize,
    joined: bool,
    begun: bool,
}

// A line that says the size k.
fn size_turn(k: usize, most: usize, st: Stage) -> Result<Stage, Cause>
    ensures { result ≡ size_turn k most st }
{
    if st.n != 0 {
        return Err(Cause::OutOfOrder);
    }
    if k < 1 || most < k {
        return Err(Cause::OutOfRange);
    }
    Ok(Stage { n: k, ..st })
}

// Whether a `label` line, and a `member` line, comes too early or too late.
fn is_no_place_for_label(st: Stage) -> bool
    ensures { result ≡ label_out st }
{
    st.joined || is_no_place_for_member(st)
}

fn is_no_place_for_member(st: Stage) -> bool
    ensures { result ≡ member_out st }
{
    st.begun || st.n == 0
}

// A line of a site after what was read so far, where `most` is the most elements that the site may have, and a signature has so many
// `rel` relations and types.
#[derive(Clone, Copy)]
struct SiteLine {
    entry: Entry,
    stage: Stage,
    most: usize,
    rels: usize,
    types: usize,
}

// What its `member` entry, and its `fact` entry, says.
fn member_line(line: SiteLine, a: usize, t: usize, k: u32, e: usize) -> MemberLine
    ensures { result ≡ record { types = line.types; n = line.stage.n; name = a; tab = t; end = e; element = k } }
{
    MemberLine {
        types: line.types,
        n: line.stage.n,
        name: a,
        tab: t,
        end: e,
        element: k,
    }
}

fn fact_line(line: SiteLine, a: usize, t: usize, e: usize, p: Places) -> TupleLine
    ensures { result ≡ record { first = 0; count = line.rels; n = line.stage.n; name = a; tab = t; end = e; places = p } }
{
    TupleLine {
        first: 0,
        count: line.rels,
        n: line.stage.n,
        name: a,
        tab: t,
        end: e,
        places: p,
    }
}

// One line of a site; of a signature the arrays are lent.
fn site_turn(
    q: &[u8],
    from: &[usize; read_names::NAMES],
    to: &[usize; read_names::NAMES],
    arity: &[usize; read_names::DECLARED],
    s: &[u8],
    labels: &mut [usize],
    members: &mut [u64],
    table: &mut [u64],
    line: SiteLine,
) -> Result<Stage, Cause>
    requires few_arities { FewArities 0 line.rels arity.now × (line.most ≤ 64) × (line.stage.n ≤ line.most)
        × ((line.stage.n ≡ 0 → ⊥) → Roomy from.now to.now arity.now 0 line.rels line.stage.n (length table.old)) }
    requires types_bound { (line.types ≤ 8) × (length members.old ≡ 8) }
    requires by_index { ((ls : List Label) × LabelsAre s.now labels.old line.stage.n ls) × ((at : ℕ) × InText s.now at line.entry) }
    ensures { (L : CaseLimits) → L.elements ≡ line.most → (g : Signature) → line.rels ≡ g.rels → line.types ≡ g.types
        → SiteTurned L q.now (with_arrays g from.now to.now arity.now) s.now line.stage line.entry
        labels.old labels.new members.old members.new table.old table.new result }
{
    let x = line.entry;
    let st = line.stage;
    match x {
        Entry::Wrong => Err(Cause::NoRecord),
        Entry::Size(k) => size_turn(k as usize, line.most, st),
        Entry::Label(k, a, t, e) => {
            if is_no_place_for_label(st) {
                return Err(Cause::OutOfOrder);
            }
            read_tuples::label(s, k, a, t, e, st.n, labels)?;
            Ok(st)
        }
        Entry::Member(a, t, k, e) => {
            if is_no_place_for_member(st) {
                return Err(Cause::OutOfOrder);
            }
            let m = member_line(line, a, t, k, e);
            read_tuples::member(q, from, to, s, labels, members, m)?;
            Ok(Stage { joined: true, ..st })
        }
        Entry::Fact(a, t, e, p) => {
            if st.n == 0 {
                return Err(Cause::OutOfOrder);
            }
            let f = fact_line(line, a, t, e, p);
            read_tuples::add(q, from, to, arity, s, s, labels, table, f)?;
            Ok(Stage { begun: true, ..st })
        }
        _ => Err(Cause::OutOfOrder),
    }
}

// Whether each of the first types has a member.
fn all_have_members(members: &[u64], types: usize) -> bool
    requires { (types ≤ 8) × (length members.now ≡ 8) }
    ensures { (n : ℕ) (ms : List Member) → n ≤ 64 → MembersAre members.now types n ms → result ≡ all (has_member ms) (below types) }
{
    for k in 0..types {
        if bits::ones(members, k, 1) == 0 {
            return false;
        }
    }
    true
}

// A site whose lines are all read, in a text that ends at `end`.
fn site_end(n: usize, types: usize, members: &[u64], end: usize) -> Result<usize, Refusal>
    requires { (types ≤ 8) × (length members.now ≡ 8) × (n ≤ 64) }
    ensures { (ms : List Member) → MembersAre members.now types n ms → result ≡ end_of n (all (has_member ms) (below types)) end }
{
    if n == 0 {
        return Err(Cause::OutOfOrder.at(end));
    }
    if !all_have_members(members, types) {
        return Err(Cause::BadType.at(0));
    }
    Ok(n)
}

// Reads a site into the labels, the members and the table.
fn site_lines(
    q: &[u8],
    g: Signature,
    s: &[u8],
    most: usize,
    labels: &mut [usize],
    members: &mut [u64],
    table: &mut [u64],
) -> Result<usize, Refusal>
    requires { SoundSignature q.now g × (most ≤ 64) × SizeRoom s.now g most (length table.old) × NoLabels labels.old × NoMembers members.old × (bit table.old ≡ λ i. false) }
    ensures { (L : CaseLimits) → L.elements ≡ most → GotSite L g s.now (read_site L (rels_of q.now g) (types_of q.now g) s.now) result labels.new members.new (bit table.new) }
{
    let end = s.len();
    if read_text::LIMIT < end {
        return Err(Cause::TooLong.at(0));
    }
    let mut at = 0;
    let mut st = Stage {
        n: 0,
        joined: false,
        begun: false,
    };
    // no count: the next line begins where this one ends
    while at < end {
        let l = read_line::line(s, at);
        let x = l.entry;
        let line = SiteLine {
            entry: x,
            stage: st,
            most,
            rels: g.rels,
            types: g.types,
        };
        st = site_turn(q, &g.from, &g.to, &g.arity, s, labels, members, table, line).map_err(
            |c| c.at(at),
        )?;
        at = l.next;
    }
    site_end(st.n, g.types, members, end)
}

// What was read into the table, which is cleared again where that was refused.
fn cleared(read: Result<usize, Refusal>, table: &mut [u64]) -> Result<usize, Refusal>
    ensures { (result ≡ read) × Cleared read table.old table.new }
{
    if read.is_err() {
        table.fill(0);
    }
    read
}

// Reads a site of at most `most` elements: its size, its labels as spans, which come in all 0, the members of its types as bits, a word a
// type, and its facts as bits of the table, which both come in cleared; the table stays so where the site is refused.
pub fn site(
    q: &[u8],
    g: Signature,
    s: &[u8],
    most: usize,
    labels: &mut [usize],
    members: &mut [u64],
    table: &mut [u64],
) -> Result<usize, Refusal>
    requires { SoundSignature q.now g × (most ≤ 64) × SizeRoom s.now g most (length table.old) × NoLabels labels.old × NoMembers members.old × (bit table.old ≡ λ i. false) }
    ensures { (L : CaseLimits) → L.elements ≡ most → SiteRead L g s.now (read_site L (rels_of q.now g) (types_of q.now g) s.now) result labels.new members.new (bit table.new) }
{
    let read = site_lines(q, g, s, most, labels, members, table);
    cleared(read, table)
}

// A line of picks over n elements, and which relations they are of: the `count` ones from `first` on.
#[derive(Clone, Copy)]
struct PickLine {
    entry: Entry,
    first: usize,
    count: usize,
    n: usize,
}

// One line of picks; of a signature the arrays are lent.
fn picks_turn(
    q: &[u8],
    from: &[usize; read_names::NAMES],
    to: &[usize; read_names::NAMES],
    arity: &[usize; read_names::DECLARED],
    s: &[u8],
    site: &[u8],
    labels: &[usize],
    table: &mut [u64],
    line: PickLine,
) -> Result<(), Cause>
    requires few_arities { FewArities line.first line.count arity.now × (line.n ≤ 64)
        × Roomy from.now to.now arity.now line.first line.count line.n (length table.old) }
    requires by_index { ((ls : List Label) × LabelsAre site.now labels.now line.n ls) × ((at : ℕ) × InText s.now at line.entry) }
    ensures { (ls : List Label) → LabelsAre site.now labels.now line.n ls → (g : Signature) → line.first ≡ g.rels → line.count ≡ g.chosen
        → PickTurned q.now (with_arrays g from.now to.now arity.now) s.now line.n ls line.entry table.old table.new result }
{
    let x = line.entry;
    match x {
        Entry::Wrong => Err(Cause::NoRecord),
        Entry::Pick(a, t, e, p) => {
            let pick = TupleLine {
                first: line.first,
                count: line.count,
                n: line.n,
                name: a,
                tab: t,
                end: e,
                places: p,
            };
            read_tuples::add(q, from, to, arity, s, site, labels, table, pick)
        }
        _ => Err(Cause::OutOfOrder),
    }
}

// Reads picks over n elements into the table.
fn picks_lines(
    q: &[u8],
    g: Signature,
    s: &[u8],
    n: usize,
    site: &[u8],
    labels: &[usize],
    table: &mut [u64],
) -> Result<usize, Refusal>
    requires sound_signature { SoundSignature q.now g × (n ≤ 64) × PicksRoom g n (length table.old) × (bit table.old ≡ λ i. false) }
    requires labels_are { (ls : List Label) × LabelsAre site.now labels.now n ls }
    ensures { (ls : List Label) → LabelsAre site.now labels.now n ls
        → GotPicks g n (read_picks (chosen_of q.now g) (5 + g.rels) n ls s.now) result (bit table.new) }
{
    let end = s.len();
    if read_text::LIMIT < end {
        return Err(Cause::TooLong.at(0));
    }
    let mut at = 0;
    let mut k: usize = 0;
    // no count: the next line begins where this one ends
    while at < end {
        let l = read_line::line(s, at);
        let x = l.entry;
        let line = PickLine {
            entry: x,
            first: g.rels,
            count: g.chosen,
            n,
        };
        picks_turn(q, &g.from, &g.to, &g.arity, s, site, labels, table, line).map_err(|c| c.at(
            at,
        ))?;
        k += 1;
        at = l.next;
    }
    Ok(k)
}

// Reads picks over n elements, whose labels are spans of the site's text: how many, and the picks as bits of the table, which comes in
// cleared and stays so where they are refused.
pub fn picks(
    q: &[u8],
    g: Signature,
    s: &[u8],
    n: usize,
    site: &[u8],
    labels: &[usize],
    table: &mut [u64],
) -> Result<usize, Refusal>
    requires sound_signature { SoundSignature q.now g × (n ≤ 64) × PicksRoom g n (length table.old) × (bit table.old ≡ λ i. false) }
    requires labels_are { (ls : List Label) × LabelsAre site.now labels.now n ls }
    ensures { (ls : List Label) → LabelsAre site.now labels.now n ls
        → PicksRead g n (read_picks (chosen_of q.now g) (5 + g.rels) n ls s.now) result (bit table.new) }
{
    let read = picks_lines(q, g, s, n, site, labels, table);
    cleared(read, table)
}

// The step of a line.
fn step(x: Entry) -> Result<u32, Cause>
    ensures { result ≡ step_of x }
{
    match x {
        Entry::Wrong => Err(Cause::NoRecord),
        Entry::Step(k) => Ok(k),
        _ => Err(Cause::OutOfOrder),
    }
}

// Entry n becomes k, where there is such an entry.
fn put(out: &mut [u32], n: usize, k: u32)
    ensures { out.new ≡ «set_at» out.old n k }
{
    if n < out.len() {
        out[n] = k;
    }
}

// Reads a whole sheet of steps to the front of `out`, which has room for as many as its bytes allow. What is in front of a line that is
// refused stands there too.
pub fn steps(s: &[u8], out: &mut [u32]) -> Result<usize, Refusal>
    requires { RoomFor s.now (length out.old) }
    ensures { StepsRead (read_steps s.now) result out.old out.new }
{
    if read_text::LIMIT < s.len() {
        return Err(Cause::TooLong.at(0));
    }
    let mut at = 0;
    let mut n = 0;
    // no count: the next line begins where this one ends
    while at < s.len() {
        let l = read_line::line(s, at);
        let k = step(l.entry).map_err(|c| c.at(at))?;
        put(out, n, k);
        n += 1;
        at = l.next;
    }
    Ok(n)
}

// What was read of a case: its relations and types, the rule's span, the number of elements, and the members of the types, a word a type.
#[derive(Clone, Copy)]
pub struct Opened {
    pub sig: Signature,
    pub rule: Span,
    pub n: usize,
    pub members: [u64; read_names::TYPES],
}

// Reads the question, then the text of a site of at most `most` elements, whose labels go to the lent numbers, which come in all 0, and
// whose facts go to the lent table, which comes in cleared and has words enough for the size that the site's first line says.
pub fn read_filed(
    question: &[u8],
    text: &[u8],
    most: usize,
    labels: &mut [usize],
    facts: &mut [u64],
) -> Result<Opened, Refusal>
    requires { (most ≤ 64) × FactsRoom text.now most (length facts.old) × NoLabels labels.old × (bit facts.old ≡ λ i. false) }
    ensures { (L : CaseLimits) → L.elements ≡ most
        → FiledRead question.now text.now (read_filed L question.now text.now) result labels.new (bit facts.new) }
{
    let q = read_question::question(question)?;
    let mut members = [0u64; read_names::TYPES];
    let n = site(question, q.sig, text, most, labels, &mut members, facts)?;
    Ok(Opened {
        sig: q.sig,
        rule: q.rule,
        n,
        members,
    })
}

// The same for a case whose labels nobody asks for.
pub fn read_case(
    question: &[u8],
    text: &[u8],
    most: usize,
    facts: &mut [u64],
) -> Result<Opened, Refusal>
    requires { (most ≤ 64) × FactsRoom text.now most (length facts.old) × (bit facts.old ≡ λ i. false) }
    ensures { (L : CaseLimits) → L.elements ≡ most → CaseRead question.now (read_case L question.now text.now) result (bit facts.new) }
{
    let mut labels = [0usize; LABELS];
    read_filed(question, text, most, &mut labels, facts)
}
