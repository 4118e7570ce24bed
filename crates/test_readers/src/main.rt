// Runs small sheets, good and damaged, through the four readers and writes what each gives: `ok` with its numbers, or the refusal's
// number and place.
#![tactic(auto)]

use refusal::Refusal;

// A number after a space.
fn number(n: usize) {
    io::write_all(1, b" ");
    io::print_decimal(1, n as u64);
}

// The number and the place of a refusal.
fn refused(e: Refusal) {
    number(e.cause.number() as usize);
    number(e.place);
}

fn answer(what: &[u8], a: Result<usize, Refusal>) {
    io::write_all(1, what);
    match a {
        Ok(n) => {
            io::write_all(1, b" ok");
            number(n);
        }
        Err(e) => refused(e),
    }
    io::write_all(1, b"\n");
}

fn ask(s: &[u8]) {
    io::write_all(1, b"question");
    match read_question::question(s) {
        Ok(q) => {
            io::write_all(1, b" ok");
            number(q.sig.rels);
            number(q.sig.chosen);
            number(q.rule.from);
            number(q.rule.to);
        }
        Err(e) => refused(e),
    }
    io::write_all(1, b"\n");
}

// A site of a question that is accepted.
fn read_site_of(text: &[u8], s: &[u8]) {
    let mut labels = [0usize; read_sheets::LABELS];
    let mut members = [0u64; read_names::TYPES];
    let mut table = [0u64; 32768];
    match read_question::question(text) {
        Ok(q) => {
            let a = read_sheets::site(text, q.sig, s, 64, &mut labels, &mut members, &mut table);
            answer(b"site", a);
        }
        Err(e) => answer(b"question", Err(e)),
    }
}

// ... with D, E, T and F.
fn read_site(s: &[u8]) {
    let text =
        b"rel\tD\t1\nrel\tE\t2\nchoose\tT\t1\nchoose\tF\tFun\nrule\t(forall (?y) (or (D ?y) (T ?y)))\n";
    read_site_of(text, s);
}

// ... with D, T and the types DOOR and CARD.
fn read_typed(s: &[u8]) {
    let text =
        b"rel\tD\t1\ntype\tDOOR\ntype\tCARD\nchoose\tT\t1\nrule\t(forall (?y:DOOR) (or (D ?y) (T ?y)))\n";
    read_site_of(text, s);
}

// Picks of that question, over two elements, the second with the label B.
fn read_picks(s: &[u8]) {
    let text =
        b"rel\tD\t1\nrel\tE\t2\nchoose\tT\t1\nchoose\tF\tFun\nrule\t(forall (?y) (or (D ?y) (T ?y)))\n";
    let site = b"size\t2\nlabel\t1\tB\n";
    let mut labels = [0usize; read_sheets::LABELS];
    let mut facts = [0u64; 512];
    match read_sheets::read_filed(text, site, 16, &mut labels, &mut facts) {
        Ok(o) => {
            let mut table = [0u64; 16384];
            let a = read_sheets::picks(text, o.sig, s, o.n, site, &labels, &mut table);
            answer(b"picks", a);
        }
        Err(e) => answer(b"site", Err(e)),
    }
}

fn read_steps(s: &[u8]) {
    let mut out = [0u32; read_sheets::STEPS];
    let a = read_sheets::steps(s, &mut out);
    answer(b"steps", a);
}

// Questions: lines, fields, numbers, names, order, the rule's own tests.
fn questions1() {
    ask(b"");
    ask(b"rel\tD\t1\n");
    ask(b"rule\t(T ?x)\n");
    ask(b"choose\tT\t1\nrule\t(T ?x)\n");
    ask(b"choose\tT\t1\nrule\t(exists (?x) (T ?x))\n");
    ask(b"choose\tT\t1\nrule\t(exists (?x) (T ?x))");
    ask(b"\n");
    ask(b"rel\tD\t0\n");
}

fn questions2() {
    ask(b"rel\tD\t4\n");
    ask(b"rel\tD\t01\n");
    ask(b"rel\tD\n");
    ask(b"rel\tD\t1\t2\n");
    ask(b"rel\td\t1\n");
    ask(b"rel\t\t1\n");
    ask(b"rel\tEQ\t2\n");
    ask(b"rel\tD\t1\nrel\tD\t2\n");
}

fn questions3() {
    ask(b"rel\tABCDEFGHIJKL\t1\nchoose\tT\t1\nrule\t(exists (?x) (T ?x))\n");
    ask(b"rel\tABCDEFGHIJKLM\t1\n");
    ask(
        b"rel\tA\t1\nrel\tB\t1\nrel\tC\t1\nrel\tD\t1\nrel\tE\t1\nrel\tF\t1\nrel\tG\t1\nrel\tH\t1\nrel\tI\t1\n",
    );
    ask(b"choose\tA\t1\nchoose\tB\t1\nchoose\tC\t1\nchoose\tD\t1\nchoose\tE\t1\n");
    ask(b"choose\tT\t1\nrel\tD\t1\n");
    ask(b"choose\tF\tFun\nrule\t(forall (?x) (exists (?y) (F ?x ?y)))\n");
    ask(b"choose\tF\tfun\n");
    ask(b"size\t2\n");
}

fn questions4() {
    ask(b"size\tx\n");
    ask(b"step\t1\n");
    ask(b"step\t12345678\n");
    ask(b"fact\tD\t0\n");
    ask(b"fact\tD\n");
    ask(b"choose\tT\t1\nrule\t(exists (?x) (S ?x))\n");
    ask(b"choose\tT\t1\nrule\t(exists (?x) (T ?x ?x))\n");
    ask(b"choose\tT\t1\nrule\t(T ?x\n");
}

fn questions5() {
    ask(b"choose\tT\t1\nrule\t\n");
    ask(b"choose\tT\t1\nrule\n");
    ask(b"choose\tT\t1\nrule\t(exists (?x ?x) (T ?x))\n");
    ask(
        b"choose\tT\t1\nrule\t(exists (?a) (exists (?b) (exists (?c) (exists (?d) (exists (?e) (T ?a))))))\n",
    );
    ask(b"choose\tT\t1\nrule\t(exists (?a ?b ?c ?d ?e) (T ?a))\n");
    ask(b"choose\tT\t1\nrule\t(exists (?x) (T ?x))\nrule\t(exists (?x) (T ?x))\n");
    ask(b"choose\tT\t1\nrule\t(exists (?x) (T ?x))\nchoose\tT\t1\n");
    ask(b"choose\tT\t1\nrule\t(exists (?x) (T ?x))\n\n");
}

fn questions6() {
    ask(b"label\t0\tA\n");
    ask(b"label\t0\ta\n");
    ask(b"rel\t\xc3\t1\n");
    ask(b"\xc3\n");
}

// Sites of the question above.
fn sites1() {
    read_site(b"");
    read_site(b"size\t2\n");
    read_site(b"size\t0\n");
    read_site(b"size\t65\n");
    read_site(b"size\t64\n");
    read_site(b"size\t1\n");
    read_site(b"fact\tD\t0\nsize\t2\n");
    read_site(b"size\t2\nsize\t2\n");
}

fn sites2() {
    read_site(b"size\t2\nfact\tD\t0\n");
    read_site(b"size\t2\nfact\tD\t2\n");
    read_site(b"size\t2\nfact\tD\t0\nfact\tD\t0\n");
    read_site(b"size\t2\nfact\tS\t0\n");
    read_site(b"size\t2\nfact\tT\t0\n");
    read_site(b"size\t2\nfact\tEQ\t0\t0\n");
    read_site(b"size\t2\nfact\tD\t0\t1\n");
    read_site(b"size\t2\nfact\tE\t0\n");
}

fn sites3() {
    read_site(b"size\t2\nfact\tE\t0\t1\nfact\tE\t1\t0\n");
    read_site(b"size\t2\nfact\tE\t0\t0\t0\t0\n");
    read_site(b"size\t2\nfact\tD\n");
    read_site(b"size\t2\nfact\tD\t\n");
    read_site(b"size\t2\nfact\tD\t+1\n");
    read_site(b"size\t2\npick\tT\t0\n");
    read_site(b"size\t2\nfact\tD\t0");
    read_site(b"size\t2");
}

fn sites4() {
    read_site(b"size\t64\nfact\tE\t63\t63\nfact\tD\t63\n");
    read_site(b"size\t64\nfact\tE\t63\t64\n");
    read_site(b"size\t2\nfact\tS\t9\n");
    read_site(b"size\t2\nfact\tS\tx\n");
    read_site(b"size\t2\n\n");
    read_site(b"rel\tD\t1\n");
}

// Labels: a good site, 18 by its three causes, 3, 2 and 10 by meaning; 9 before 18.
fn labels1() {
    read_site(
        b"size\t3\nlabel\t2\tLOBBY\nlabel\t0\tD\nfact\tD\tLOBBY\nfact\tE\tLOBBY\tD\nfact\tE\t1\tLOBBY\n",
    );
    read_site(b"size\t2\nlabel\t1\tA\nlabel\t1\tB\n");
    read_site(b"size\t2\nlabel\t1\tA\nlabel\t0\tA\n");
    read_site(b"size\t2\nfact\tD\tA\n");
    read_site(b"size\t2\nlabel\t1\tA\nlabel\tA\tB\n");
    read_site(b"size\t2\nlabel\tB\tA\n");
    read_site(b"size\t2\nlabel\t2\tA\n");
    read_site(b"size\t2\nfact\tE\tA\t2\n");
}

fn labels2() {
    read_site(b"label\t0\tA\nsize\t2\n");
    read_site(b"size\t2\nfact\tD\t0\nlabel\t0\tA\n");
    read_site(b"size\t2\nlabel\t0\n");
    read_site(b"size\t2\nlabel\t0\ta\n");
    read_site(b"size\t2\nlabel\t01\tA\n");
    read_site(b"size\t2\nlabel\t0\t1\n");
    read_site(b"size\t2\nfact\tD\tlobby\n");
    read_site(b"size\t2\nlabel\t1\tA\nfact\tD\t1\nfact\tD\tA\n");
}

// Types: their lines, in the rule, and their members.
fn types1() {
    ask(b"type\tDOOR\nchoose\tT\t1\nrule\t(exists (?x:DOOR ?y) (T ?x))\n");
    ask(b"type\tDOOR\nrel\tD\t1\n");
    ask(b"type\tdoor\n");
    ask(b"type\tDOOR\ntype\tDOOR\n");
    ask(b"type\tDOOR\t1\n");
    ask(b"choose\tT\t1\ntype\tDOOR\n");
    ask(b"type\tA\ntype\tB\ntype\tC\ntype\tD\ntype\tE\ntype\tF\ntype\tG\ntype\tH\ntype\tI\n");
    ask(b"member\tDOOR\t1\n");
}

fn types2() {
    ask(b"choose\tT\t1\nrule\t(exists (?x:DOOR) (T ?x))\n");
    ask(b"choose\tT\t1\nrule\t(exists (?x:DOOR) (T ?y))\n");
    ask(b"type\tT\nchoose\tT\t1\nrule\t(exists (?x:T) (T ?x:T))\n");
    ask(b"type\tDOOR\nchoose\tT\t1\nrule\t(exists (?x:) (T ?x))\n");
    ask(b"type\tDOOR\nchoose\tT\t1\nrule\t(exists (?x:DOOR:DOOR) (T ?x))\n");
    ask(b"type\tEQ\nchoose\tT\t1\nrule\t(forall (?x:EQ ?y:EQ) (implies (T ?x) (T ?y)))\n");
}

fn members1() {
    read_typed(b"size\t3\nmember\tDOOR\t2\nmember\tCARD\t0\nfact\tD\t1\n");
    read_typed(b"size\t3\nmember\tDOOR\t2\n");
    read_typed(b"");
    read_typed(b"member\tDOOR\t2\n");
    read_typed(b"size\t3\nmember\tDOOR\n");
    read_typed(b"size\t3\nmember\tDOOR\tlobby\n");
    read_typed(b"size\t3\nfact\tD\t1\nmember\tDOOR\t2\n");
    read_typed(b"size\t3\nmember\tZONE\t9\n");
}

fn members2() {
    read_typed(b"size\t3\nmember\tDOOR\t3\n");
    read_typed(b"size\t3\nmember\t\t1\n");
    read_typed(b"size\t3\nmember\tDOOR\tLOBBY\n");
    read_typed(b"size\t3\nlabel\t2\tLOBBY\nmember\tDOOR\tLOBBY\nmember\tDOOR\t2\n");
    read_typed(b"size\t3\nmember\tDOOR\t2\nlabel\t2\tLOBBY\n");
    read_typed(b"size\t3\nmember\tDOOR\t2\nmember\tCARD\t2\nsize\t3\n");
    read_site(b"size\t3\nmember\tDOOR\t2\n");
    read_picks(b"member\tDOOR\t1\n");
    read_steps(b"type\tDOOR\n");
}

// An `every` line: its place, its fields, its name; and in the other sheets.
fn every1() {
    ask(b"choose\tT\t1\nevery\tL\t1\nrule\t(forall (?x) (or (T ?x) (L ?x)))\n");
    ask(b"every\tL\t1\nchoose\tT\t1\n");
    ask(b"choose\tT\t1\nevery\tL\t1\nevery\tM\t1\n");
    ask(b"choose\tT\t1\nevery\tL\t1\nchoose\tM\t1\n");
    ask(b"choose\tT\t1\nevery\tL\t3\n");
    ask(b"choose\tT\t1\nevery\tL\t0\n");
    ask(b"choose\tT\t1\nevery\tT\t1\n");
    ask(b"choose\tT\t1\nevery\tEQ\t2\n");
}

fn every2() {
    ask(b"choose\tT\t1\nrule\t(exists (?x) (T ?x))\nevery\tL\t1\n");
    ask(b"choose\tT\t1\nevery\tL\tFun\n");
    ask(b"choose\tT\t1\nevery\tL\n");
    ask(b"type\tL\nchoose\tT\t1\nevery\tL\t2\nrule\t(exists (?x:L) (L ?x ?x))\n");
    ask(b"choose\tT\t1\nevery\tL\t1\nrule\t(exists (?x) (L ?x ?x))\n");
    let text = b"choose\tT\t1\nevery\tL\t1\nrule\t(exists (?x) (L ?x))\n";
    read_site_of(text, b"size\t2\nfact\tL\t0\n");
    read_site(b"size\t2\nevery\tL\t1\n");
    read_picks(b"every\tL\t1\n");
    read_steps(b"every\tL\t1\n");
}

// Picks over two elements.
fn picks1() {
    read_picks(b"");
    read_picks(b"pick\tT\t0\npick\tT\t1\n");
    read_picks(b"pick\tT\t2\n");
    read_picks(b"pick\tD\t0\n");
    read_picks(b"pick\tT\t1\npick\tT\t1\n");
    read_picks(b"pick\tF\t0\t1\npick\tF\t0\t0\n");
    read_picks(b"fact\tD\t0\n");
    read_picks(b"step\t0\n");
}

fn picks2() {
    read_picks(b"pick\tT\n");
    read_picks(b"pick\n");
    read_picks(b"pick\tT\t0\npick\tF\t1\n");
}

fn picks3() {
    read_picks(b"pick\tT\tB\npick\tF\tB\tB\n");
    read_picks(b"pick\tT\tB\npick\tT\t1\n");
    read_picks(b"pick\tT\tA\n");
    read_picks(b"pick\tF\tA\t2\n");
    read_picks(b"label\t0\tA\n");
}

// Steps.
fn steps1() {
    read_steps(b"");
    read_steps(b"step\t0\nstep\t1\n");
    read_steps(b"step\t9999999\n");
    read_steps(b"step\t10000000\n");
    read_steps(b"step\t00\n");
    read_steps(b"step\t01\n");
    read_steps(b"step\t\n");
    read_steps(b"step\n");
}

fn steps2() {
    read_steps(b"step\t1\t2\n");
    read_steps(b"step\t1");
    read_steps(b"step\t1\nsize\t2\n");
    read_steps(b"step\t1\nsize\tx\n");
    read_steps(b"step\t1\nlabel\t0\tA\n");
    read_steps(b"step\t1\nstop\t2\n");
    read_steps(b"step 1\n");
    read_steps(b"step\t1\n\nstep\t2\n");
    read_steps(b"Step\t1\n");
}

// The same step on line after line.
fn repeat(out: &mut [u8]) {
    let line = b"step\t0\n";
    for (i, b) in out.iter_mut().enumerate() {
        *b = line[i % 7];
    }
}

fn read_repeated(text: &mut [u8]) {
    repeat(text);
    read_steps(text);
}

// Texts that were too long at first: lines of 65,537 bytes are read, and 9,363 steps; the last of 9,363 lines is not ended.
fn long() {
    let lines = [10u8; 65537];
    ask(&lines);
    read_site(&lines);
    read_picks(&lines);
    read_steps(&lines);
    let mut steps = [0u8; 65541];
    read_repeated(&mut steps);
    let mut cut = [0u8; 65540];
    read_repeated(&mut cut);
}

// A byte over the limit, and the limit itself.
fn read_over(s: &[u8; 1048577]) {
    ask(s);
    read_site(s);
    read_picks(s);
    read_steps(s);
}

fn over() {
    let s = [10u8; 1048577];
    read_over(&s);
}

fn read_longest(s: &[u8; read_text::LIMIT]) {
    ask(s);
    read_steps(s);
}

fn longest() {
    let s = [10u8; read_text::LIMIT];
    read_longest(&s);
}

fn main() {
    questions1();
    questions2();
    questions3();
    questions4();
    questions5();
    questions6();
    sites1();
    sites2();
    sites3();
    sites4();
    labels1();
    labels2();
    types1();
    types2();
    members1();
    members2();
    every1();
    every2();
    picks1();
    picks2();
    picks3();
    steps1();
    steps2();
    long();
    over();
    longest();
}
