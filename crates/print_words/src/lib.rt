// The words of a domain and an instance (document 02, job 11): terms and predicates, an atom of them in brackets, and a line with one.
#![tactic(auto)]

ghost use Rattle.std.specs.Prelude.{◌≡◌, [], ◌∷◌, ◌++◌, map, ◌+◌, ◌≤◌, ◌<◌};
ghost use Rattle.definitions.specs.Lists.{below};
ghost use Rattle.definitions.specs.Reply.Pddl.{parameter_word, term_word, indented};
ghost use Rattle.definitions.specs.Sheet.Formula.{write_each};
ghost use Rattle.print_bytes.specs.Emitted.{Emits};
ghost use Rattle.print_page.specs.Elements.{Names};
ghost use Rattle.print_words.specs.Words.{term_by, codes_of, name_from, built_in_name, shape_word, word_in, atom_in, WordFits, TermsFit};

// A predicate by numbers. Of relation `which`: its tuples (kind 0), those that are none (1), elements that are free as a first (2), as a
// second place (3). Of node `which`: that it is proved (4), and `shape` is its kind (0 forall, 1 exists, 2 and, 3 or).
#[derive(Clone, Copy)]
pub struct Word {
    pub kind: usize,
    pub which: usize,
    pub shape: usize,
}

// Terms: each is a parameter's index, below 8, or 8 and an element. The first `count` of them.
#[derive(Clone, Copy)]
pub struct Terms {
    pub at: [usize; 6],
    pub count: usize,
}

// A parameter.
pub fn parameter_word(out: &mut [u8], at: usize, i: usize) -> usize
    ensures { Emits (parameter_word i) out.old at out.new result }
{
    let begun = print_bytes::text(out, at, b"?x");
    print_bytes::decimal(out, begun, i)
}

// A term by its number.
fn term(out: &mut [u8], at: usize, k: usize) -> usize
    ensures { Emits (term_word (term_by k)) out.old at out.new result }
{
    if k < 8 {
        return parameter_word(out, at, k);
    }
    print_names::object_word(out, at, k - 8)
}

// Terms, a space before each.
fn listed(out: &mut [u8], at: usize, t: Terms) -> usize
    requires { TermsFit t }
    ensures { Emits (write_each (λ v. v) (map term_word (map term_by (codes_of t)))) out.old at out.new result }
{
    let mut next = at;
    for k in &t.at[..t.count] {
        let spaced = print_bytes::byte(out, next, 32);
        next = term(out, spaced, *k);
    }
    next
}

// The first k parameters.
pub fn parameters(k: usize) -> Terms
    requires { k ≤ 6 }
    ensures { TermsFit result × (result.count ≡ k) × (codes_of result ≡ below k) }
{
    Terms {
        at: [0, 1, 2, 3, 4, 5],
        count: k,
    }
}

// One term more.
pub fn with_term(t: Terms, k: usize) -> Terms
    requires { (t.count < 6) × TermsFit t }
    ensures { TermsFit result × (result.count ≡ t.count + 1) × (codes_of result ≡ codes_of t ++ (k ∷ [])) }
{
    let n = t.count;
    let mut r = t;
    r.at[n] = k;
    r.count = n + 1;
    r
}

// The name of a relation that is built in.
fn built_in_name(out: &mut [u8], at: usize, r: usize) -> usize
    requires { r < 5 }
    ensures { Emits (built_in_name r) out.old at out.new result }
{
    if r == 0 {
        return print_bytes::text(out, at, b"EQ");
    }
    if r == 1 {
        return print_bytes::text(out, at, b"LT");
    }
    if r == 2 {
        return print_bytes::text(out, at, b"SUC");
    }
    if r == 3 {
        return print_bytes::text(out, at, b"ZERO");
    }
    print_bytes::text(out, at, b"MAX")
}

// The name of a relation: it is built in, or a span of the question.
fn name(out: &mut [u8], at: usize, question: &[u8], names: &[usize], r: usize) -> usize
    requires { Names question.now names.now × (r < 18) }
    ensures { Emits (name_from question.now names.now r) out.old at out.new result }
{
    if r < 5 {
        return built_in_name(out, at, r);
    }
    let from = names[3 * r];
    let to = names[3 * r + 1];
    print_bytes::text(out, at, &question[from..to])
}

// What a kind of node is called.
fn shape_word(out: &mut [u8], at: usize, shape: usize) -> usize
    ensures { Emits (shape_word shape) out.old at out.new result }
{
    if shape == 0 {
        return print_bytes::text(out, at, b"forall");
    }
    if shape == 1 {
        return print_bytes::text(out, at, b"exists");
    }
    if shape == 2 {
        return print_bytes::text(out, at, b"and");
    }
    print_bytes::text(out, at, b"or")
}

// A predicate.
fn predicate(out: &mut [u8], at: usize, question: &[u8], names: &[usize], w: Word) -> usize
    requires { Names question.now names.now × WordFits w }
    ensures { Emits (word_in question.now names.now w) out.old at out.new result }
{
    if w.kind == 0 {
        let begun = print_bytes::text(out, at, b"r_");
        return name(out, begun, question, names, w.which);
    }
    if w.kind == 1 {
        let begun = print_bytes::text(out, at, b"not-r_");
        return name(out, begun, question, names, w.which);
    }
    if w.kind == 2 {
        let begun = print_bytes::text(out, at, b"free_");
        let named = name(out, begun, question, names, w.which);
        return print_bytes::text(out, named, b"_dom");
    }
    if w.kind == 3 {
        let begun = print_bytes::text(out, at, b"free_");
        let named = name(out, begun, question, names, w.which);
        return print_bytes::text(out, named, b"_ran");
    }
    let begun = print_bytes::text(out, at, b"holds_");
    let shaped = shape_word(out, begun, w.shape);
    let parted = print_bytes::text(out, shaped, b"_");
    print_bytes::decimal(out, parted, w.which)
}

// A predicate and its terms in brackets.
pub fn atom(out: &mut [u8], at: usize, question: &[u8], names: &[usize], w: Word, t: Terms) -> usize
    requires { Names question.now names.now × WordFits w × TermsFit t }
    ensures { Emits (atom_in question.now names.now w (codes_of t)) out.old at out.new result }
{
    let opened = print_bytes::text(out, at, b"(");
    let said = predicate(out, opened, question, names, w);
    let filled = listed(out, said, t);
    print_bytes::text(out, filled, b")")
}

// The same on a line of its own.
pub fn line(out: &mut [u8], at: usize, question: &[u8], names: &[usize], w: Word, t: Terms) -> usize
    requires { Names question.now names.now × WordFits w × TermsFit t }
    ensures { Emits (indented 4 (atom_in question.now names.now w (codes_of t))) out.old at out.new result }
{
    let begun = print_bytes::spaces(out, at, 4);
    let said = atom(out, begun, question, names, w, t);
    print_bytes::byte(out, said, 10)
}
