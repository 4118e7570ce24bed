// The domain of a case (document 02, job 11) to the byte, from the table of names, the relations by number and the node table.
#![tactic(auto)]

ghost use Rattle.std.specs.Prelude.{◌≡◌, [], ◌∷◌, ◌+◌, ◌-◌, ◌≤◌, ◌<◌, set, if◌then◌else◌};
ghost use Rattle.definitions.specs.Lists.{flat_map, from, below};
ghost use Rattle.definitions.specs.Sheet.Formula.{write_each};
ghost use Rattle.definitions.specs.Reply.Pddl.{parameter_word};
ghost use Rattle.print_bytes.specs.Emitted.{Emits};
ghost use Rattle.print_page.specs.Elements.{Names};
ghost use Rattle.print_names.specs.Naming.{SmallName};
ghost use Rattle.print_words.specs.Words.{codes_of, WordFits, TermsFit};
ghost use Rattle.rule_nodes.specs.Tables.{Fits, PartFits, Levels};
ghost use Rattle.print_domain.specs.Texts.{relation_lines, relations_lines, node_places_of, nodes_lines, params_text, head_text, also_text, used_text};
ghost use Rattle.print_domain.specs.Texts.{set_text, set_if, sets_text, is_picked, RelationsKnown};
ghost use Rattle.print_domain.specs.Actions.{row_at, env_of, part_terms, part_word, part_text, proof_end, kid_text, and_text, or_text, ors_text};
ghost use Rattle.print_domain.specs.Actions.{under_text, exists_text, first_text, next_text, forall_text, node_text, nodes_text, goal_text};
ghost use Rattle.print_domain.specs.Actions.{constants_text, domain_in};
ghost use Rattle.print_domain.specs.Nodes.{Bounded, predicates_in, guesses_in};

use print_names::Name;
use print_words::{Terms, Word};
use problem_layout::Relations;
use rule_nodes::{NodeRow, Nodes, PartRow};

// The term of each level by its number, 8 for one without, and that of the last element.
#[derive(Clone, Copy)]
pub struct Env {
    pub at: [usize; 4],
    pub end: usize,
}

// ---- predicates

// The word of a relation's predicate of a kind.
fn word_of(kind: usize, r: usize) -> Word
    ensures { result ≡ record { kind = kind; which = r; shape = 0 } }
{
    Word {
        kind,
        which: r,
        shape: 0,
    }
}

// The lines of a relation's predicates.
fn relation_lines(
    out: &mut [u8],
    at: usize,
    question: &[u8],
    names: &[usize],
    r: usize,
    arity: usize,
    kind: usize,
) -> usize
    requires { Names question.now names.now × (r < 18) × (arity ≤ 3) }
    ensures { Emits (relation_lines question.now names.now r arity kind) out.old at out.new result }
{
    let places = print_words::parameters(arity);
    let one = print_words::line(out, at, question, names, word_of(0, r), places);
    let two = print_words::line(out, one, question, names, word_of(1, r), places);
    let only = print_words::parameters(1);
    let is = print_instance::is_function(kind);
    let three = print_instance::line_if(out, two, question, names, word_of(2, r), only, is);
    let too = print_instance::is_injective(kind);
    print_instance::line_if(out, three, question, names, word_of(3, r), only, too)
}

// This loop, and those of `set_schemas`, `kids` and `or_schemas`, differ in the call that they make for each number. One loop that took the call
// as a closure would need a contract that is longer than the four.
fn relations_lines(
    out: &mut [u8],
    at: usize,
    question: &[u8],
    names: &[usize],
    g: Relations,
) -> usize
    requires { Names question.now names.now × RelationsKnown g }
    ensures { Emits (relations_lines question.now names.now g) out.old at out.new result }
{
    let mut next = at;
    for r in 0..g.count {
        next = relation_lines(out, next, question, names, r, g.arity[r], g.kind[r]);
    }
    next
}

// How many places a node's predicate has.
fn node_places(row: NodeRow) -> usize
    requires { row.width ≤ 4 }
    ensures { (result ≡ node_places_of row) × (result ≤ 5) }
{
    let width = rule_nodes::wide(row.width);
    if row.kind == 0 {
        return width + 1;
    }
    width
}

fn nodes_lines(out: &mut [u8], at: usize, question: &[u8], names: &[usize], t: Nodes) -> usize
    requires { Names question.now names.now × Fits t }
    ensures { Emits (nodes_lines question.now names.now t) out.old at out.new result }
{
    let mut next = at;
    for v in 0..t.count {
        let row = t.rows[v];
        let w = Word {
            kind: 4,
            which: v,
            shape: rule_nodes::wide(row.kind),
        };
        let places = print_words::parameters(node_places(row));
        next = print_words::line(out, next, question, names, w, places);
    }
    next
}

// ---- actions

// The parameters after the first, a space before each.
fn further(out: &mut [u8], at: usize, count: usize) -> usize
    requires { count ≤ 6 }
    ensures { Emits (write_each parameter_word (from 1 (count - 1))) out.old at out.new result }
{
    let mut next = at;
    for i in 1..count {
        let spaced = print_bytes::byte(out, next, 32);
        next = print_words::parameter_word(out, spaced, i);
    }
    next
}

// Parameters in brackets, a space between two.
fn bracketed(out: &mut [u8], at: usize, count: usize) -> usize
    requires { count ≤ 6 }
    ensures { Emits (params_text count) out.old at out.new result }
{
    if count == 0 {
        return print_bytes::text(out, at, b"()");
    }
    let opened = print_bytes::text(out, at, b"(");
    let first = print_words::parameter_word(out, opened, 0);
    let listed = further(out, first, count);
    print_bytes::text(out, listed, b")")
}

// An action as far as what it needs.
fn head(
    out: &mut [u8],
    at: usize,
    question: &[u8],
    names: &[usize],
    name: Name,
    count: usize,
) -> usize
    requires { Names question.now names.now × SmallName name × (count ≤ 6) }
    ensures { Emits (head_text question.now names.now name count) out.old at out.new result }
{
    let begun = print_bytes::text(out, at, b"  (:action ");
    let named = print_names::action_word(out, begun, question, names, name);
    let second = print_bytes::text(out, named, b"\n    :parameters ");
    let listed = bracketed(out, second, count);
    print_bytes::text(out, listed, b"\n    :precondition (and")
}

// An atom after a space, or its negation.
fn also(
    out: &mut [u8],
    at: usize,
    question: &[u8],
    names: &[usize],
    w: Word,
    t: Terms,
    negated: bool,
) -> usize
    requires { Names question.now names.now × WordFits w × TermsFit t }
    ensures { Emits (also_text question.now names.now w (codes_of t) negated) out.old at out.new result }
{
    if negated {
        let begun = print_bytes::text(out, at, b" (not ");
        let said = print_words::atom(out, begun, question, names, w, t);
        return print_bytes::text(out, said, b")");
    }
    let begun = print_bytes::text(out, at, b" ");
    print_words::atom(out, begun, question, names, w, t)
}

// The same where `is` says so.
fn also_if(
    out: &mut [u8],
    at: usize,
    question: &[u8],
    names: &[usize],
    w: Word,
    t: Terms,
    negated: bool,
    is: bool,
) -> usize
    requires { Names question.now names.now × WordFits w × TermsFit t }
    ensures { Emits (if is then also_text question.now names.now w (codes_of t) negated else []) out.old at out.new result }
{
    if is {
        return also(out, at, question, names, w, t, negated);
    }
    at
}

// One term alone.
fn only(k: usize) -> Terms
    ensures { TermsFit result × (result.count ≡ 1) × (codes_of result ≡ k ∷ []) }
{
    print_words::with_term(print_words::parameters(0), k)
}

// What setting a tuple uses up.
fn used_up(
    out: &mut [u8],
    at: usize,
    question: &[u8],
    names: &[usize],
    r: usize,
    arity: usize,
    kind: usize,
    negated: bool,
) -> usize
    requires { Names question.now names.now × (r < 18) × (arity ≤ 3) }
    ensures { Emits (used_text question.now names.now r arity kind negated) out.old at out.new result }
{
    let places = print_words::parameters(arity);
    let not = Word {
        kind: 1,
        which: r,
        shape: 0,
    };
    let one = also(out, at, question, names, not, places, negated);
    let firsts = Word {
        kind: 2,
        which: r,
        shape: 0,
    };
    let first = only(0);
    let is = print_instance::is_function(kind);
    let two = also_if(out, one, question, names, firsts, first, negated, is);
    let seconds = Word {
        kind: 3,
        which: r,
        shape: 0,
    };
    let second = only(1);
    let too = print_instance::is_injective(kind);
    also_if(out, two, question, names, seconds, second, negated, too)
}

// The action that sets a tuple.
fn set_schema(
    out: &mut [u8],
    at: usize,
    question: &[u8],
    names: &[usize],
    r: usize,
    arity: usize,
    kind: usize,
) -> usize
    requires { Names question.now names.now × (r < 18) × (arity ≤ 3) }
    ensures { Emits (set_text question.now names.now r arity kind) out.old at out.new result }
{
    let headed = head(out, at, question, names, Name::Set(r), arity);
    let guessed = print_bytes::text(out, headed, b" (guess)");
    let needed = used_up(out, guessed, question, names, r, arity, kind, false);
    let turned = print_bytes::text(out, needed, b")\n    :effect (and");
    let places = print_words::parameters(arity);
    let w = Word {
        kind: 0,
        which: r,
        shape: 0,
    };
    let added = also(out, turned, question, names, w, places, false);
    let removed = used_up(out, added, question, names, r, arity, kind, true);
    print_bytes::text(out, removed, b"))\n")
}

// Of a `choose` line, whose kinds are 1 to 5.
fn is_picked(kind: usize) -> bool
    ensures { result ≡ is_picked kind }
{
    if kind < 1 {
        return false;
    }
    kind < 6
}

fn set_if(
    out: &mut [u8],
    at: usize,
    question: &[u8],
    names: &[usize],
    r: usize,
    arity: usize,
    kind: usize,
) -> usize
    requires { Names question.now names.now × (r < 18) × (arity ≤ 3) }
    ensures { Emits (set_if question.now names.now r arity kind) out.old at out.new result }
{
    if is_picked(kind) {
        return set_schema(out, at, question, names, r, arity, kind);
    }
    at
}

fn set_schemas(out: &mut [u8], at: usize, question: &[u8], names: &[usize], g: Relations) -> usize
    requires { Names question.now names.now × RelationsKnown g }
    ensures { Emits (sets_text question.now names.now g) out.old at out.new result }
{
    let mut next = at;
    for r in 0..g.count {
        next = set_if(out, next, question, names, r, g.arity[r], g.kind[r]);
    }
    next
}

// ---- nodes

// The terms of a node's levels: its free levels are its parameters, and others would be the first object.
fn env_of(row: NodeRow, end: usize) -> Env
    requires { (row.width ≤ 4) × Levels row.levels }
    ensures { (result.at ≡ env_of row) × (result.end ≡ end) }
{
    let levels = row.levels;
    let mut terms = [8usize; 4];
    for i in (0..rule_nodes::wide(row.width)).rev() {
        let l = rule_nodes::wide(levels[i]);
        terms[l] = i;
    }
    Env {
        at: terms,
        end: end,
    }
}

// The same with a term for one level.
fn env_with(e: Env, level: usize, k: usize) -> Env
    requires { level < 4 }
    ensures { (result.at ≡ set e.at level k) × (result.end ≡ e.end) }
{
    let mut r = e;
    r.at[level] = k;
    r
}

// The terms of a part.
fn part_terms(q: PartRow, e: Env) -> Terms
    requires { PartFits q }
    ensures { TermsFit result × (codes_of result ≡ part_terms q e.at e.end) }
{
    let width = rule_nodes::wide(q.width);
    let levels = q.levels;
    let env = e.at;
    let mut t = print_words::parameters(0);
    for i in 0..width {
        let l = rule_nodes::wide(levels[i]);
        t = print_words::with_term(t, env[l]);
    }
    if q.tag == 2 {
        return print_words::with_term(t, e.end);
    }
    t
}

// Its predicate.
fn part_word(t: Nodes, q: PartRow) -> Word
    requires { Fits t × PartFits q }
    ensures { (result ≡ part_word t q) × WordFits result }
{
    let number = rule_nodes::wide(q.which);
    let tag = rule_nodes::wide(q.tag);
    if tag < 2 {
        return Word {
            kind: tag,
            which: number,
            shape: 0,
        };
    }
    let row = t.rows[number];
    Word {
        kind: 4,
        which: number,
        shape: rule_nodes::wide(row.kind),
    }
}

// A part as an action needs it.
fn part(
    out: &mut [u8],
    at: usize,
    question: &[u8],
    names: &[usize],
    t: Nodes,
    q: PartRow,
    e: Env,
) -> usize
    requires { Names question.now names.now × Fits t × PartFits q }
    ensures { Emits (part_text question.now names.now t q e.at e.end) out.old at out.new result }
{
    let w = part_word(t, q);
    let terms = part_terms(q, e);
    also(out, at, question, names, w, terms, false)
}

// What an action adds alone, and its end.
fn proof_end(
    out: &mut [u8],
    at: usize,
    question: &[u8],
    names: &[usize],
    w: Word,
    own: Terms,
) -> usize
    requires { Names question.now names.now × WordFits w × TermsFit own }
    ensures { Emits (proof_end question.now names.now w (codes_of own)) out.old at out.new result }
{
    let turned = print_bytes::text(out, at, b")\n    :effect (and");
    let added = also(out, turned, question, names, w, own, false);
    print_bytes::text(out, added, b"))\n")
}

// A node's part by its number.
fn kid(
    out: &mut [u8],
    at: usize,
    question: &[u8],
    names: &[usize],
    t: Nodes,
    v: usize,
    k: usize,
    end: usize,
) -> usize
    requires { Names question.now names.now × Fits t × (v < 64) × ((row_at t v).first + k < 64) }
    ensures { Emits (kid_text question.now names.now t v end k) out.old at out.new result }
{
    let row = t.rows[v];
    let e = env_of(row, end);
    let first = rule_nodes::wide(row.first);
    let q = t.parts[first + k];
    part(out, at, question, names, t, q, e)
}

fn kids(
    out: &mut [u8],
    at: usize,
    question: &[u8],
    names: &[usize],
    t: Nodes,
    v: usize,
    end: usize,
) -> usize
    requires { Names question.now names.now × Fits t × (v < 64) }
    ensures { Emits (flat_map (kid_text question.now names.now t v end) (below (row_at t v).many)) out.old at out.new result }
{
    let row = t.rows[v];
    let many = rule_nodes::wide(row.many);
    let mut next = at;
    for k in 0..many {
        next = kid(out, next, question, names, t, v, k, end);
    }
    next
}

fn and_schema(
    out: &mut [u8],
    at: usize,
    question: &[u8],
    names: &[usize],
    t: Nodes,
    v: usize,
    end: usize,
) -> usize
    requires { Names question.now names.now × Fits t × (v < 64) }
    ensures { Emits (and_text question.now names.now t v end) out.old at out.new result }
{
    let row = t.rows[v];
    let width = rule_nodes::wide(row.width);
    let headed = head(out, at, question, names, Name::And(v), width);
    let opened = print_bytes::text(out, headed, b" (proof)");
    let needed = kids(out, opened, question, names, t, v, end);
    let w = Word {
        kind: 4,
        which: v,
        shape: 2,
    };
    let own = print_words::parameters(width);
    proof_end(out, needed, question, names, w, own)
}

fn or_schema(
    out: &mut [u8],
    at: usize,
    question: &[u8],
    names: &[usize],
    t: Nodes,
    v: usize,
    i: usize,
    end: usize,
) -> usize
    requires { Names question.now names.now × Fits t × (v < 64) × ((row_at t v).first + i < 64) }
    ensures { Emits (or_text question.now names.now t v end i) out.old at out.new result }
{
    let row = t.rows[v];
    let width = rule_nodes::wide(row.width);
    let headed = head(out, at, question, names, Name::Or(v, i), width);
    let opened = print_bytes::text(out, headed, b" (proof)");
    let needed = kid(out, opened, question, names, t, v, i, end);
    let w = Word {
        kind: 4,
        which: v,
        shape: 3,
    };
    let own = print_words::parameters(width);
    proof_end(out, needed, question, names, w, own)
}

fn or_schemas(
    out: &mut [u8],
    at: usize,
    question: &[u8],
    names: &[usize],
    t: Nodes,
    v: usize,
    end: usize,
) -> usize
    requires { Names question.now names.now × Fits t × (v < 64) }
    ensures { Emits (ors_text question.now names.now t v end) out.old at out.new result }
{
    let row = t.rows[v];
    let many = rule_nodes::wide(row.many);
    let mut next = at;
    for i in 0..many {
        next = or_schema(out, next, question, names, t, v, i, end);
    }
    next
}

// A quantifier's part, its variable being a term.
fn under(
    out: &mut [u8],
    at: usize,
    question: &[u8],
    names: &[usize],
    t: Nodes,
    v: usize,
    x: usize,
    end: usize,
) -> usize
    requires { Names question.now names.now × Fits t × (v < 64) × ((row_at t v).first < 64) }
    ensures { Emits (under_text question.now names.now t v x end) out.old at out.new result }
{
    let row = t.rows[v];
    let e = env_of(row, end);
    let bound = env_with(e, rule_nodes::wide(row.level), x);
    let first = rule_nodes::wide(row.first);
    let q = t.parts[first];
    part(out, at, question, names, t, q, bound)
}

fn exists_schema(
    out: &mut [u8],
    at: usize,
    question: &[u8],
    names: &[usize],
    t: Nodes,
    v: usize,
    end: usize,
) -> usize
    requires { Names question.now names.now × Fits t × (v < 64) × ((row_at t v).first < 64) }
    ensures { Emits (exists_text question.now names.now t v end) out.old at out.new result }
{
    let row = t.rows[v];
    let width = rule_nodes::wide(row.width);
    let headed = head(out, at, question, names, Name::Exists(v), width + 1);
    let opened = print_bytes::text(out, headed, b" (proof)");
    let needed = under(out, opened, question, names, t, v, width, end);
    let w = Word {
        kind: 4,
        which: v,
        shape: 1,
    };
    let own = print_words::parameters(width);
    proof_end(out, needed, question, names, w, own)
}

fn first_schema(
    out: &mut [u8],
    at: usize,
    question: &[u8],
    names: &[usize],
    t: Nodes,
    v: usize,
    end: usize,
) -> usize
    requires { Names question.now names.now × Fits t × (v < 64) × ((row_at t v).first < 64) }
    ensures { Emits (first_text question.now names.now t v end) out.old at out.new result }
{
    let row = t.rows[v];
    let width = rule_nodes::wide(row.width);
    let headed = head(out, at, question, names, Name::First(v), width);
    let opened = print_bytes::text(out, headed, b" (proof)");
    let needed = under(out, opened, question, names, t, v, 8, end);
    let w = Word {
        kind: 4,
        which: v,
        shape: 0,
    };
    let own = print_words::with_term(print_words::parameters(width), 8);
    proof_end(out, needed, question, names, w, own)
}

fn next_schema(
    out: &mut [u8],
    at: usize,
    question: &[u8],
    names: &[usize],
    t: Nodes,
    v: usize,
    end: usize,
) -> usize
    requires { Names question.now names.now × Fits t × (v < 64) × ((row_at t v).first < 64) }
    ensures { Emits (next_text question.now names.now t v end) out.old at out.new result }
{
    let row = t.rows[v];
    let width = rule_nodes::wide(row.width);
    let headed = head(out, at, question, names, Name::Next(v), width + 2);
    let opened = print_bytes::text(out, headed, b" (proof)");
    let suc = Word {
        kind: 0,
        which: 2,
        shape: 0,
    };
    let both = print_words::with_term(only(width), width + 1);
    let followed = also(out, opened, question, names, suc, both, false);
    let w = Word {
        kind: 4,
        which: v,
        shape: 0,
    };
    let own = print_words::parameters(width);
    let before = print_words::with_term(own, width);
    let owned = also(out, followed, question, names, w, before, false);
    let needed = under(out, owned, question, names, t, v, width + 1, end);
    let after = print_words::with_term(own, width + 1);
    proof_end(out, needed, question, names, w, after)
}

fn forall_schemas(
    out: &mut [u8],
    at: usize,
    question: &[u8],
    names: &[usize],
    t: Nodes,
    v: usize,
    end: usize,
) -> usize
    requires { Names question.now names.now × Fits t × (v < 64) × ((row_at t v).first < 64) }
    ensures { Emits (forall_text question.now names.now t v end) out.old at out.new result }
{
    let one = first_schema(out, at, question, names, t, v, end);
    next_schema(out, one, question, names, t, v, end)
}

fn node_schemas(
    out: &mut [u8],
    at: usize,
    question: &[u8],
    names: &[usize],
    t: Nodes,
    v: usize,
    end: usize,
) -> usize
    requires { Names question.now names.now × Fits t × Bounded t × (v < t.count) }
    ensures { Emits (node_text question.now names.now t v end) out.old at out.new result }
{
    let row = t.rows[v];
    if row.kind == 0 {
        return forall_schemas(out, at, question, names, t, v, end);
    }
    if row.kind == 1 {
        return exists_schema(out, at, question, names, t, v, end);
    }
    if row.kind == 2 {
        return and_schema(out, at, question, names, t, v, end);
    }
    or_schemas(out, at, question, names, t, v, end)
}

fn nodes_schemas(
    out: &mut [u8],
    at: usize,
    question: &[u8],
    names: &[usize],
    t: Nodes,
    end: usize,
) -> usize
    requires { Names question.now names.now × Fits t × Bounded t }
    ensures { Emits (nodes_text question.now names.now t end) out.old at out.new result }
{
    let mut next = at;
    for v in 0..t.count {
        next = node_schemas(out, next, question, names, t, v, end);
    }
    next
}

fn goal_schema(
    out: &mut [u8],
    at: usize,
    question: &[u8],
    names: &[usize],
    t: Nodes,
    end: usize,
) -> usize
    requires { Names question.now names.now × Fits t }
    ensures { Emits (goal_text question.now names.now t end) out.old at out.new result }
{
    let headed = head(out, at, question, names, Name::Goal, 0);
    let q = t.root;
    let e = Env {
        at: [8usize; 4],
        end: end,
    };
    let needed = part(out, headed, question, names, t, q, e);
    print_bytes::text(out, needed, b")\n    :effect (and (holds_goal)))\n")
}

// ---- the whole

// The first object and the last.
fn constants(out: &mut [u8], at: usize, n: usize) -> usize
    requires { 0 < n }
    ensures { Emits (constants_text n) out.old at out.new result }
{
    let one = print_bytes::text(out, at, b"  (:constants o0");
    if n == 1 {
        return print_bytes::text(out, one, b")\n");
    }
    let spaced = print_bytes::byte(out, one, 32);
    let two = print_names::object_word(out, spaced, n - 1);
    print_bytes::text(out, two, b")\n")
}

// Up to the actions.
fn predicates(
    out: &mut [u8],
    at: usize,
    question: &[u8],
    names: &[usize],
    n: usize,
    g: Relations,
    t: Nodes,
) -> usize
    requires { Names question.now names.now × RelationsKnown g × Fits t × (0 < n) }
    ensures { Emits (predicates_in question.now names.now n g t) out.old at out.new result }
{
    let titled = print_bytes::text(out, at, b"(define (domain case)\n");
    let listed = constants(out, titled, n);
    let begun = print_bytes::text(
        out,
        listed,
        b"  (:predicates\n    (guess)\n    (proof)\n    (holds_goal)\n",
    );
    let related = relations_lines(out, begun, question, names, g);
    let noded = nodes_lines(out, related, question, names, t);
    print_bytes::text(out, noded, b"  )\n")
}

// The actions that set tuples, and the one that begins the proof.
fn guesses(out: &mut [u8], at: usize, question: &[u8], names: &[usize], g: Relations) -> usize
    requires { Names question.now names.now × RelationsKnown g }
    ensures { Emits (guesses_in question.now names.now g) out.old at out.new result }
{
    let set = set_schemas(out, at, question, names, g);
    print_bytes::text(
        out,
        set,
        b"  (:action begin-proof\n    :parameters ()\n    :precondition (and (guess))\n    :effect (and (proof) (not (guess))))\n",
    )
}

// The domain of a case with n elements.
pub fn domain(
    out: &mut [u8],
    at: usize,
    question: &[u8],
    names: &[usize],
    n: usize,
    g: Relations,
    t: Nodes,
) -> usize
    requires { Names question.now names.now × RelationsKnown g × Fits t × Bounded t × (0 < n) × (n ≤ 64) }
    ensures { Emits (domain_in question.now names.now n g t) out.old at out.new result }
{
    let stated = predicates(out, at, question, names, n, g, t);
    let guessed = guesses(out, stated, question, names, g);
    let end = n + 7;
    let proved = nodes_schemas(out, guessed, question, names, t, end);
    let ended = goal_schema(out, proved, question, names, t, end);
    print_bytes::text(out, ended, b")\n")
}
