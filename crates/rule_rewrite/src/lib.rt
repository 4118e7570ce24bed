// From the text of a rule to the rows of its tree: negation is pushed inward, and the rows go into a table in postorder.
#![tactic(auto)]

ghost use Rattle.std.specs.Prelude.{◌≡◌, Bool, true, false, List, [], ◌∷◌, ℕ, zero, ◌+◌, ◌*◌, ◌≤◌, ◌<◌, length, drop, replicate};
ghost use Rattle.std.proofs.Math.Seq.{slice};
ghost use Rattle.definitions.specs.Lists.{option};
ghost use Rattle.definitions.specs.Sheet.Relations.{number_of};
ghost use Rattle.definitions.specs.Sheet.Formula.{join_word, totals};
ghost use Rattle.definitions.specs.Sheet.Parsing.{kind_of, is_implies, is_other};
ghost use Rattle.definitions.specs.Problem.Tree.{nodes_all, totalities as totalitiesOf};
ghost use Rattle.read_names.specs.Signatures.{Lent, all_of, chosen_of, types_in};
ghost use Rattle.read_rule.specs.Seen.{names, total_of};
ghost use Rattle.rule_nodes.specs.Postorder.{post, post_all, leaf_kind, leaf_row, quant_row, join_row, rows_from};
ghost use Rattle.rule_rewrite.specs.Trees.{join_kind, quant_kind, chain as chainOf};
ghost use Rattle.rule_rewrite.specs.Ready.{as_join, as_quant, join_head, quant_head, level_of, sort_in, Adds, ReadyIn, PartsReadyIn, ListReady, VarsReady, Walks, WalksParts, Opened, Filled};
ghost use Rattle.rule_rewrite.specs.Rule.{totality_of, one_totality, Accepted, RowsOf, TableOf};

use read_names::Signature;
use read_rule::{Kind, Scope};
use rule_nodes::{Nodes, Row};

// How many rows of a lent table are in use, and how many preorder numbers are taken.
#[derive(Clone, Copy)]
struct Used {
    len: usize,
    nodes: usize,
}

// ... and the place after what the rows are of.
#[derive(Clone, Copy)]
struct Walk {
    len: usize,
    nodes: usize,
    at: usize,
}

// ... and how many parts they are of.
#[derive(Clone, Copy)]
struct Pieces {
    len: usize,
    nodes: usize,
    at: usize,
    many: usize,
}

// A scope with the variables of a list, their sorts by level, and the place after the list.
#[derive(Clone, Copy)]
struct Bound {
    scope: Scope,
    sorts: [u8; 4],
    at: usize,
}

// A literal's row, and the place after its variables.
#[derive(Clone, Copy)]
struct Leaf {
    row: Row,
    at: usize,
}

// A literal's kind: a tuple, or a not-tuple.
fn leaf_kind(pos: bool) -> u8
    ensures { result ≡ leaf_kind pos }
{
    if pos { 4 } else { 5 }
}

// What `and` and `or` become: an or and an and under a negation.
fn join_kind(pos: bool, conj: bool) -> u8
    ensures { result ≡ join_kind pos (as_join conj) }
{
    if pos {
        if conj { 2 } else { 3 }
    } else {
        if conj { 3 } else { 2 }
    }
}

// What `exists` and `forall` become.
fn quant_kind(pos: bool, some: bool) -> u8
    ensures { result ≡ quant_kind pos (as_quant some) }
{
    if pos {
        if some { 1 } else { 0 }
    } else {
        if some { 0 } else { 1 }
    }
}

fn join_row(kind: u8, which: usize, many: usize) -> Row
    requires { (which ≤ 64) × (many ≤ 64) }
    ensures { result ≡ join_row kind which many }
{
    Row {
        kind,
        which: which as u8,
        many: many as u8,
        sort: 0,
        width: 0,
        levels: [0u8; 3],
    }
}

fn quant_row(kind: u8, which: usize, level: usize, sort: u8) -> Row
    requires { (which ≤ 64) × (level ≤ 64) }
    ensures { result ≡ quant_row kind which level sort }
{
    Row {
        kind,
        which: which as u8,
        many: 1,
        sort,
        width: 1,
        levels: [level as u8, 0, 0],
    }
}

// The rows of k quantifiers one inside the other, the innermost first; the outermost has number `which` and `level`. Their sorts
// stand by level.
fn chain(
    rows: &mut [u8],
    len: usize,
    kind: u8,
    which: usize,
    level: usize,
    k: usize,
    sorts: [u8; 4],
)
    requires { (len + k ≤ 64) × (which + k ≤ 64) × (level + k ≤ 4) × (length rows.old ≡ 512) }
    ensures { (nodes : ℕ) → Adds (rows_from rows.old len nodes) (chainOf kind which level sorts k) 0 (rows_from rows.new (len + k) nodes) }
{
    if k == 0 {
        return;
    }
    let l = level + (k - 1);
    let row = quant_row(kind, which + (k - 1), l, sorts[l]);
    rule_nodes::put_row(rows, len, row);
    chain(rows, len + 1, kind, which, level, k - 1, sorts);
}

// How many quantifiers stand around the one that binds the variable from `a` to `e`; 0 if none does.
fn level(s: &[u8], a: usize, e: usize, sc: Scope) -> u8
    requires { sc.n ≤ 4 }
    ensures { result ≡ level_of (names s.now sc) (slice a e s.now) }
{
    for i in 0..sc.n {
        if read_text::same_span(s, a, e, s, sc.from[i], sc.to[i]) {
            return i as u8;
        }
    }
    0
}

// The number of the relation that is named from `a` to `e`, in a signature whose names and count are lent; 0 if there is none.
fn number(s: &[u8], from: &[usize], to: &[usize], m: usize, a: usize, e: usize) -> u8
    requires { (m ≤ 13) × (13 ≤ length from.now) × (13 ≤ length to.now) }
    ensures { (g : Signature) → Lent g from.now to.now m → result ≡ option (number_of (all_of s.now g) (slice a e s.now)) zero (λ k. k) }
{
    match read_names::relation(s, from, to, m, a, e) {
        Some(k) => k as u8,
        None => 0,
    }
}

// The levels of the variables at `at`, each after a space.
fn fill(s: &[u8], at: usize, row: Row, sc: Scope) -> Leaf
    requires { VarsReady s.now at sc row.width }
    ensures { (p : Bool) (k : ℕ) (ls : List ℕ) (w : VarsReady s.now at sc row.width) → row ≡ leaf_row p k ls → Filled s.now at sc p k ls w.vs result }
{
    let mut i = at;
    let mut full = row;
    // no count: how many follow is known once the last was read
    while s[i] == 32 {
        let e = read_rule::run(s, i + 2, true);
        let l = level(s, i + 1, e, sc);
        let n = rule_nodes::wide(full.width);
        full.levels[n] = l;
        full.width += 1;
        i = e;
    }
    Leaf { row: full, at: i }
}

// The sort of a variable that ends at `at`, its type being what follows a colon there, up to `end`; 0 if nothing does.
fn sort_at(s: &[u8], at: usize, end: usize, from: &[usize], to: &[usize]) -> u8
    requires { (at ≤ length s.now) × (21 ≤ length from.now) × (21 ≤ length to.now) }
    ensures { result ≡ sort_in (types_in s.now from.now to.now 8) s.now at end }
{
    if at == end {
        return 0;
    }
    match read_names::type_named(s, from, to, read_names::TYPES, s, at + 1, end) {
        Some(k) => (k + 1) as u8,
        None => 0,
    }
}

// The variables at `at`, one byte between them and their types, are bound, and their sorts noted.
fn bind(s: &[u8], at: usize, from: &[usize], to: &[usize], sc: Scope) -> Bound
    requires in_bounds { (21 ≤ length from.now) × (21 ≤ length to.now) }
    requires list_ready { ListReady s.now at sc }
    ensures { (w : ListReady s.now at sc) → Opened s.now at (types_in s.now from.now to.now 8) sc (replicate 4 0) (w.q ∷ w.qs) result }
{
    let mut inner = sc;
    let mut sorts = [0u8; 4];
    let mut i = at;
    // no count: the list ends with the variable after which no other stands
    loop {
        let e = read_rule::run(s, i + 1, true);
        let end = read_rule::past_type(s, e);
        let sort = sort_at(s, e, end, from, to);
        let n = inner.n;
        inner.from[n] = i;
        inner.to[n] = e;
        inner.n = n + 1;
        sorts[n] = sort;
        if s[end] != 32 {
            return Bound {
                scope: inner,
                sorts,
                at: end + 2,
            };
        }
        i = end + 1;
    }
}

// The literal at `at`.
fn literal(
    s: &[u8],
    at: usize,
    pos: bool,
    from: &[usize],
    to: &[usize],
    m: usize,
    sc: Scope,
    rows: &mut [u8],
    len: usize,
    nodes: usize,
) -> Walk
    requires in_bounds { (21 ≤ length from.now) × (21 ≤ length to.now) × (length rows.old ≡ 512) }
    requires ready_in { ReadyIn s.now at from.now to.now m sc (rows_from rows.old len nodes) }
    requires s_value { kind_of (drop at s.now) ≡ is_other }
    ensures { Walks pos s.now at from.now to.now m sc (rows_from rows.old len nodes) result.at (rows_from rows.new result.len result.nodes) }
{
    let a = read_rule::run(s, at + 1, false);
    let which = number(s, from, to, m, at + 1, a);
    let kind = leaf_kind(pos);
    let none = Row {
        kind,
        which,
        many: 0,
        sort: 0,
        width: 0,
        levels: [0u8; 3],
    };
    let l = fill(s, a, none, sc);
    let row = l.row;
    let end = l.at;
    rule_nodes::put_row(rows, len, row);
    Walk {
        len: len + 1,
        nodes,
        at: end + 1,
    }
}

// The formula at `at`, as it stands or under a negation.
#[cycle(arrow_further_gather_part_under)]
fn part(
    s: &[u8],
    at: usize,
    pos: bool,
    from: &[usize],
    to: &[usize],
    m: usize,
    sc: Scope,
    rows: &mut [u8],
    len: usize,
    nodes: usize,
) -> Walk
    requires in_bounds { (21 ≤ length from.now) × (21 ≤ length to.now) × (length rows.old ≡ 512) }
    requires ready_in { ReadyIn s.now at from.now to.now m sc (rows_from rows.old len nodes) }
    ensures { Walks pos s.now at from.now to.now m sc (rows_from rows.old len nodes) result.at (rows_from rows.new result.len result.nodes) }
{
    let k = read_rule::kind_at(s, at);
    match k {
        Kind::Not => {
            let w = part(s, at + 5, !pos, from, to, m, sc, rows, len, nodes);
            Walk { at: w.at + 1, ..w }
        }
        Kind::Implies => arrow(s, at, pos, from, to, m, sc, rows, len, nodes),
        Kind::And => gather(s, at, true, pos, from, to, m, sc, rows, len, nodes),
        Kind::Or => gather(s, at, false, pos, from, to, m, sc, rows, len, nodes),
        Kind::Exists => under(s, at, true, pos, from, to, m, sc, rows, len, nodes),
        Kind::Forall => under(s, at, false, pos, from, to, m, sc, rows, len, nodes),
        Kind::Other => literal(s, at, pos, from, to, m, sc, rows, len, nodes),
    }
}

// An implication: an `or` whose first part is negated, and under a negation an `and` whose second is.
#[cycle(arrow_further_gather_part_under)]
fn arrow(
    s: &[u8],
    at: usize,
    pos: bool,
    from: &[usize],
    to: &[usize],
    m: usize,
    sc: Scope,
    rows: &mut [u8],
    len: usize,
    nodes: usize,
) -> Walk
    requires in_bounds { (21 ≤ length from.now) × (21 ≤ length to.now) × (length rows.old ≡ 512) }
    requires ready_in { ReadyIn s.now at from.now to.now m sc (rows_from rows.old len nodes) }
    requires s_value { kind_of (drop at s.now) ≡ is_implies }
    ensures { Walks pos s.now at from.now to.now m sc (rows_from rows.old len nodes) result.at (rows_from rows.new result.len result.nodes) }
{
    let x = part(s, at + 9, !pos, from, to, m, sc, rows, len, nodes + 1);
    let y = part(s, x.at + 1, pos, from, to, m, sc, rows, x.len, x.nodes);
    let kind = join_kind(pos, false);
    let row = join_row(kind, nodes, 2);
    rule_nodes::put_row(rows, y.len, row);
    Walk {
        len: y.len + 1,
        nodes: y.nodes,
        at: y.at + 1,
    }
}

// How long `(and ` and `(or ` are.
fn join_word(conj: bool) -> usize
    ensures { result ≡ length (join_word (as_join conj)) }
{
    if conj { 5 } else { 4 }
}

// `and`, `or`.
#[cycle(arrow_further_gather_part_under)]
fn gather(
    s: &[u8],
    at: usize,
    conj: bool,
    pos: bool,
    from: &[usize],
    to: &[usize],
    m: usize,
    sc: Scope,
    rows: &mut [u8],
    len: usize,
    nodes: usize,
) -> Walk
    requires in_bounds { (21 ≤ length from.now) × (21 ≤ length to.now) × (length rows.old ≡ 512) }
    requires ready_in { ReadyIn s.now at from.now to.now m sc (rows_from rows.old len nodes) }
    requires s_value { kind_of (drop at s.now) ≡ join_head conj }
    ensures { Walks pos s.now at from.now to.now m sc (rows_from rows.old len nodes) result.at (rows_from rows.new result.len result.nodes) }
{
    let skip = join_word(conj);
    let x = part(s, at + skip, pos, from, to, m, sc, rows, len, nodes + 1);
    let y = further(s, x.at, pos, 1, from, to, m, sc, rows, x.len, x.nodes);
    let kind = join_kind(pos, conj);
    let row = join_row(kind, nodes, y.many);
    rule_nodes::put_row(rows, y.len, row);
    Walk {
        len: y.len + 1,
        nodes: y.nodes,
        at: y.at + 1,
    }
}

// Further parts, each after a space, `many` having come before.
#[cycle(arrow_further_gather_part_under)]
fn further(
    s: &[u8],
    at: usize,
    pos: bool,
    many: usize,
    from: &[usize],
    to: &[usize],
    m: usize,
    sc: Scope,
    rows: &mut [u8],
    len: usize,
    nodes: usize,
) -> Pieces
    requires in_bounds { (21 ≤ length from.now) × (21 ≤ length to.now) × (length rows.old ≡ 512) }
    requires parts_ready_in { PartsReadyIn s.now at from.now to.now m sc (rows_from rows.old len nodes) }
    requires many_le_len { many ≤ len }
    ensures { WalksParts pos s.now at from.now to.now m sc (rows_from rows.old len nodes) many result.at result.many (rows_from rows.new result.len result.nodes) }
{
    if s[at] == 32 {
        let x = part(s, at + 1, pos, from, to, m, sc, rows, len, nodes);
        further(
            s,
            x.at,
            pos,
            many + 1,
            from,
            to,
            m,
            sc,
            rows,
            x.len,
            x.nodes,
        )
    } else {
        Pieces {
            len,
            nodes,
            at,
            many,
        }
    }
}

// `exists`, `forall`.
#[cycle(arrow_further_gather_part_under)]
fn under(
    s: &[u8],
    at: usize,
    some: bool,
    pos: bool,
    from: &[usize],
    to: &[usize],
    m: usize,
    sc: Scope,
    rows: &mut [u8],
    len: usize,
    nodes: usize,
) -> Walk
    requires in_bounds { (21 ≤ length from.now) × (21 ≤ length to.now) × (length rows.old ≡ 512) }
    requires ready_in { ReadyIn s.now at from.now to.now m sc (rows_from rows.old len nodes) }
    requires s_value { kind_of (drop at s.now) ≡ quant_head some }
    ensures { Walks pos s.now at from.now to.now m sc (rows_from rows.old len nodes) result.at (rows_from rows.new result.len result.nodes) }
{
    let level = sc.n;
    let d = bind(s, at + 9, from, to, sc);
    let inner = d.scope;
    let sorts = d.sorts;
    let a = d.at;
    let k = inner.n - level;
    let x = part(s, a, pos, from, to, m, inner, rows, len, nodes + k);
    let kind = quant_kind(pos, some);
    chain(rows, x.len, kind, nodes, level, k, sorts);
    Walk {
        len: x.len + k,
        nodes: x.nodes,
        at: x.at + 1,
    }
}

// The literal of a totality.
fn pair_row(relation: usize) -> Row
    requires { relation ≤ 64 }
    ensures { result ≡ leaf_row true relation (0 ∷ 1 ∷ []) }
{
    Row {
        kind: 4,
        which: relation as u8,
        many: 0,
        sort: 0,
        width: 2,
        levels: [0, 1, 0],
    }
}

// "For all a some b" of a relation, of these sorts.
fn totality(rows: &mut [u8], len: usize, nodes: usize, relation: usize, firsts: u8, seconds: u8)
    requires { (len + 3 ≤ 64) × (nodes + 3 ≤ 64) × (relation ≤ 64) × (length rows.old ≡ 512) }
    ensures { Adds (rows_from rows.old len nodes) (post nodes (totality_of relation firsts seconds)) 2 (rows_from rows.new (len + 3) (nodes + 2)) }
{
    let a = pair_row(relation);
    rule_nodes::put_row(rows, len, a);
    let b = quant_row(1, nodes + 1, 1, seconds);
    rule_nodes::put_row(rows, len + 1, b);
    let c = quant_row(0, nodes, 0, firsts);
    rule_nodes::put_row(rows, len + 2, c);
}

// ... if it is of a total kind.
fn totality_by_kind(
    rows: &mut [u8],
    len: usize,
    nodes: usize,
    kind: u32,
    relation: usize,
    firsts: u8,
    seconds: u8,
) -> Used
    requires { (len + 3 * total_of kind ≤ 64) × (nodes + 3 * total_of kind ≤ 64) × (relation ≤ 64) × (length rows.old ≡ 512) }
    ensures { Adds (rows_from rows.old len nodes) (post_all nodes (one_totality kind relation firsts seconds)) (length (nodes_all (one_totality kind relation firsts seconds))) (rows_from rows.new result.len result.nodes) }
{
    if read_rule::total(kind) == 0 {
        return Used { len, nodes };
    }
    totality(rows, len, nodes, relation, firsts, seconds);
    Used {
        len: len + 3,
        nodes: nodes + 2,
    }
}

// The totalities of all chosen relations.
fn totalities(rows: &mut [u8], len: usize, nodes: usize, sig: Signature) -> Used
    requires chosen_bound { (sig.rels + sig.chosen ≤ 12) × (length rows.old ≡ 512) }
    requires by_index { (q : List ℕ) → (len + 3 * totals (chosen_of q sig) ≤ 64) × (nodes + 3 * totals (chosen_of q sig) ≤ 64) }
    ensures { (q : List ℕ) → Adds (rows_from rows.old len nodes) (post_all nodes (totalitiesOf (5 + sig.rels) (chosen_of q sig))) (length (nodes_all (totalitiesOf (5 + sig.rels) (chosen_of q sig)))) (rows_from rows.new result.len result.nodes) }
{
    let mut u = Used { len, nodes };
    let end = sig.rels + sig.chosen;
    for i in sig.rels..end {
        let kind = sig.kind[i];
        let firsts = sig.firsts[i];
        let seconds = sig.seconds[i];
        u = totality_by_kind(rows, u.len, u.nodes, kind, 5 + i, firsts, seconds);
    }
    u
}

// The rows of the tree of an accepted rule, totalities and the joining `and` included.
fn rows_of(text: &[u8], at: usize, end: usize, sig: Signature, rows: &mut [u8]) -> Used
    requires accepted { Accepted text.now at end sig }
    requires rows_len { length rows.old ≡ 512 }
    ensures { RowsOf text.now at end sig (rows_from rows.new result.len result.nodes) }
{
    let sc = Scope {
        from: [0usize; 4],
        to: [0usize; 4],
        n: 0,
    };
    let from = sig.from;
    let to = sig.to;
    let m = sig.rels + sig.chosen + sig.every;
    let total = read_rule::totalities(sig);
    if total == 0 {
        let w = part(text, at, true, &from, &to, m, sc, rows, 0, 0);
        return Used {
            len: w.len,
            nodes: w.nodes,
        };
    }
    let w = part(text, at, true, &from, &to, m, sc, rows, 0, 1);
    let u = totalities(rows, w.len, w.nodes, sig);
    let row = join_row(2, 0, total + 1);
    rule_nodes::put_row(rows, u.len, row);
    Used {
        len: u.len + 1,
        nodes: u.nodes,
    }
}

// The node table of the question whose rule, from `at` to `end`, was accepted.
pub fn nodes_of(text: &[u8], at: usize, end: usize, sig: Signature) -> Nodes
    requires { Accepted text.now at end sig }
    ensures { TableOf text.now at end sig result }
{
    let mut rows = [0u8; rule_nodes::BYTES];
    let u = rows_of(text, at, end, sig, &mut rows);
    rule_nodes::tabulate(&rows, u.len, u.nodes)
}
