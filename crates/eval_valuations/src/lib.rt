// The truth of a rule for sixty-four valuations of its chosen literals at once: digit j of a word is for valuation j. The lines are those
// of `eval_rule`; for a chosen literal a word is lent for its tuple, and one for its not-tuple, at the tuple's bit among the picks.
#![tactic(auto)]

ghost use Rattle.std.specs.Prelude.{◌≡◌, ℕ, ◌^◌, ◌<◌, ◌≤◌, get_or};
ghost use Rattle.definitions.specs.Problem.Tree.{Tree};
ghost use Rattle.bits.specs.Table.{digit};
ghost use Rattle.rows.specs.Values.{value_in, Within};
ghost use Rattle.eval_rule.specs.Lines.{line_in, SoundLines};
ghost use Rattle.eval_rule.specs.Says.{Truth, Says, Asked, node_of, no_values};
ghost use Rattle.eval_valuations.specs.Words.{spread_of, skip_to, only_of, leaf_words, leaf_in, Turned};

use eval_rule::PartAt;

// All digits set.
pub const FULL: u64 = u64::MAX;

// A word, or its complement.
pub fn turned(w: u64, keeps: bool) -> u64
    ensures { Turned w keeps result }
{
    if keeps {
        return w;
    }
    !w
}

// The same in every valuation.
pub fn spread(b: bool) -> u64
    ensures { result ≡ spread_of b }
{
    if b {
        return FULL;
    }
    0
}

// What comes next, or the end where nothing more can change a word.
fn skip(next: usize, end: usize, w: u64) -> usize
    ensures { result ≡ skip_to next end w }
{
    if w == FULL {
        return end;
    }
    next
}

// A word, or nothing of it.
fn only(w: u64, b: bool) -> u64
    ensures { result ≡ only_of w b }
{
    if b {
        return w;
    }
    0
}

// In which valuations a literal holds at the values of levels.
fn leaf_words(
    lines: &[usize],
    facts: &[u64],
    pos: &[u64],
    neg: &[u64],
    n: usize,
    i: usize,
    q: PartAt,
    env: [usize; 4],
) -> u64
    requires { SoundLines n lines.now × (i < 65) × Within n env }
    ensures { result ≡ leaf_words facts.now pos.now neg.now n (value_in env) q (line_in lines.now i) }
{
    if q.which < 6 {
        return spread(eval_rule::leaf_holds(lines, facts, facts, n, i, q, env));
    }
    let line = eval_rule::line_at(lines, i);
    let k = problem_table::part_number(line, env);
    if q.tag == 1 {
        return bits::word_at(pos, k);
    }
    bits::word_at(neg, k)
}

// In which valuations node v is true at the values of levels. A word that is full is left at once: no further part, or element, can
// change it. In the valuations of `still` a part that is the same at every element decides: there one element tells of all.
pub fn node_words(
    lines: &[usize],
    facts: &[u64],
    pos: &[u64],
    neg: &[u64],
    n: usize,
    v: usize,
    env: [usize; 4],
) -> u64
    requires { SoundLines n lines.now × (v < 64) × Within n env }
    ensures { (j : ℕ) → j < 64 → (H : Truth) (root : Tree) → Asked H root n lines.now (leaf_in facts.now pos.now neg.now n j) v
        → digit result j ≡ H (value_in env) (node_of root v) }
{
    let x = eval_rule::node_at(lines, v);
    let kind = x.kind;
    let level = x.level;
    let first = x.first;
    let many = x.many;
    let range = x.range;
    let turns = x.count;
    let sought = kind == 1;
    let joins = x.join == 1;
    let old = env[level];
    let mut values = env;
    let mut found: u64 = 0;
    let mut turn: usize = 0;
    // no counts: both loops go to their end at once where no further turn can change the word (by `break` the proof has each turn twice)
    'elements: while turn < turns {
        values[level] = eval_rule::value_at(lines, kind, range + turn, old);
        let mut hit: u64 = 0;
        let mut still: u64 = 0;
        let mut i: usize = 0;
        'parts: while i < many {
            let q = eval_rule::part_at(lines, first + i);
            let w = if q.tag == 0 {
                node_words(lines, facts, pos, neg, n, q.which, values)
            } else {
                leaf_words(lines, facts, pos, neg, n, first + i, q, values)
            };
            let t = turned(w, joins);
            let f = eval_rule::is_fixed(lines, first + i, level);
            let o = only(t, f);
            hit = hit | t;
            still = still | o;
            i = skip(i + 1, many, hit);
        }
        found = found | turned(turned(hit, joins), sought);
        turn = skip(turn + 1, turns, found | still);
    }
    turned(found, sought)
}

// In which valuations the rule is true.
pub fn rule_words(lines: &[usize], facts: &[u64], pos: &[u64], neg: &[u64], n: usize) -> u64
    requires { SoundLines n lines.now }
    ensures { (j : ℕ) → j < 64 → (H : Truth) (root : Tree) → Says H root n lines.now (leaf_in facts.now pos.now neg.now n j)
        → digit result j ≡ H no_values root }
{
    let env = [0usize; 4];
    let q = eval_rule::part_at(lines, 64);
    if q.tag == 0 {
        return node_words(lines, facts, pos, neg, n, q.which, env);
    }
    leaf_words(lines, facts, pos, neg, n, 64, q, env)
}
