// The words of a plan's lines (document 02, job 11): of objects, and of actions by their names.
#![tactic(auto)]

ghost use Rattle.std.specs.Prelude.{◌<◌};
ghost use Rattle.definitions.specs.Reply.Pddl.{object_word};
ghost use Rattle.print_bytes.specs.Emitted.{Emits};
ghost use Rattle.print_page.specs.Elements.{Names};
ghost use Rattle.print_names.specs.Naming.{SmallName, set_word, one_number, two_numbers, word_in};

// An action's name: of a relation, of a node, of a node and a part; or none.
#[derive(Clone, Copy)]
pub enum Name {
    Set(usize),
    Begin,
    Goal,
    And(usize),
    Exists(usize),
    First(usize),
    Next(usize),
    Or(usize, usize),
    Nobody,
}

// An object's word.
pub fn object_word(out: &mut [u8], at: usize, x: usize) -> usize
    ensures { Emits (object_word x) out.old at out.new result }
{
    let next = print_bytes::byte(out, at, 111);
    print_bytes::decimal(out, next, x)
}

// The word of the action that sets a relation's tuples.
fn set_word(out: &mut [u8], at: usize, question: &[u8], names: &[usize], r: usize) -> usize
    requires { Names question.now names.now × (r < 18) }
    ensures { Emits (set_word question.now names.now r) out.old at out.new result }
{
    let from = names[3 * r];
    let to = names[3 * r + 1];
    let begun = print_bytes::text(out, at, b"set_");
    let named = print_bytes::text(out, begun, &question[from..to]);
    print_bytes::text(out, named, b"_true")
}

// A word that ends in a number.
fn one_number(out: &mut [u8], at: usize, front: &[u8], v: usize) -> usize
    ensures { Emits (one_number front.now v) out.old at out.new result }
{
    let begun = print_bytes::text(out, at, front);
    print_bytes::decimal(out, begun, v)
}

// A number, and another after an underscore.
fn two_numbers(out: &mut [u8], at: usize, front: &[u8], v: usize, i: usize) -> usize
    ensures { Emits (two_numbers front.now v i) out.old at out.new result }
{
    let first = one_number(out, at, front, v);
    let next = print_bytes::byte(out, first, 95);
    print_bytes::decimal(out, next, i)
}

// An action's word.
pub fn action_word(out: &mut [u8], at: usize, question: &[u8], names: &[usize], k: Name) -> usize
    requires { Names question.now names.now × SmallName k }
    ensures { Emits (word_in question.now names.now k) out.old at out.new result }
{
    match k {
        Name::Set(r) => set_word(out, at, question, names, r),
        Name::Begin => print_bytes::text(out, at, b"begin-proof"),
        Name::Goal => print_bytes::text(out, at, b"prove-goal"),
        Name::And(v) => one_number(out, at, b"prove_and_", v),
        Name::Exists(v) => one_number(out, at, b"prove_exists_", v),
        Name::First(v) => two_numbers(out, at, b"prove_forall_", v, 1),
        Name::Next(v) => two_numbers(out, at, b"prove_forall_", v, 2),
        Name::Or(v, i) => two_numbers(out, at, b"prove_or_", v, i),
        Name::Nobody => at,
    }
}
