// The action of a number.
#![tactic(auto)]

ghost use Rattle.std.specs.Prelude.{◌≡◌, ◌+◌, ◌<◌, ◌≤◌, length};
ghost use Rattle.definitions.specs.Problem.Atoms.{Problem};
ghost use Rattle.definitions.specs.Problem.Actions.{action_at};
ghost use Rattle.problem_table.specs.Lines.{table_length, Fits};
ghost use Rattle.problem_table.specs.Numbers.{ActFits};
ghost use Rattle.problem_table.specs.Of.{Is, act_of};
ghost use Rattle.problem_action.specs.Decoded.{Grounded, proof_in, mark_at};

// The action of offset `off` among those of node v: by row, and in a row by the place of the element in its range or by the part.
fn proof_of(
    table: &[usize],
    v: usize,
    off: usize,
    line: problem_table::NodeLine,
) -> problem_table::Act
    requires { (length table.now ≡ table_length) × (line.range + line.count ≤ table_length) × (line.kind < 2 → 0 < line.count) × (3 ≤ line.kind → 0 < line.many) }
    ensures { result ≡ proof_in table.now v off line }
{
    let count = line.count;
    let range = line.range;
    if line.kind == 0 {
        return problem_table::Act::Forall(problem_table::ChoiceAct {
            node: v,
            row: off / count,
            choice: table[range + off % count],
        });
    }
    if line.kind == 1 {
        return problem_table::Act::Exists(problem_table::ChoiceAct {
            node: v,
            row: off / count,
            choice: table[range + off % count],
        });
    }
    if line.kind == 2 {
        return problem_table::Act::And(problem_table::RowAct { node: v, row: off });
    }
    let many = line.many;
    problem_table::Act::Or(problem_table::ChoiceAct {
        node: v,
        row: off / many,
        choice: off % many,
    })
}

// The action of offset `off` past that which ends a round: a mark-in for each tuple of the `every` relation, then a mark-out for each.
fn mark_of(table: &[usize], off: usize) -> problem_table::Act
    requires { Fits table.now }
    ensures { result ≡ mark_at table.now off }
{
    let count = problem_table::every_tuples(table);
    if off < count {
        return problem_table::Act::MarkIn(problem_table::TupleAct {
            relation: table[1] - 1,
            row: off,
        });
    }
    if off - count < count {
        return problem_table::Act::MarkOut(problem_table::TupleAct {
            relation: table[1] - 1,
            row: off - count,
        });
    }
    problem_table::Act::Nothing
}

// The action of number k.
pub fn action_at(table: &[usize], k: usize) -> problem_table::Act
    requires { Grounded table.now }
    ensures { ActFits table.now result × ((p : Problem) → Is p table.now → result ≡ act_of (action_at p k)) }
{
    let rels = table[1];
    let nodes = table[2];
    let begin = table[problem_table::RELATION_AT + problem_table::RELATION_LINE * rels];
    let goal = table[problem_table::NODE_AT + problem_table::NODE_LINE * nodes];
    if k < begin {
        let r = rows::locate(
            table,
            problem_table::RELATION_AT,
            problem_table::RELATION_LINE,
            rels,
            k,
        );
        let off = k - table[problem_table::RELATION_AT + problem_table::RELATION_LINE * r];
        let line = problem_table::relation_line(table, r);
        let row = problem_table::set_row(table, line, off);
        return problem_table::Act::Set(problem_table::TupleAct { relation: r, row });
    }
    if k == begin {
        return problem_table::Act::Begin;
    }
    if k < goal {
        let v = rows::locate(
            table,
            problem_table::NODE_AT,
            problem_table::NODE_LINE,
            nodes,
            k,
        );
        let off = k - table[problem_table::NODE_AT + problem_table::NODE_LINE * v];
        let line = problem_table::node_line(table, v);
        return proof_of(table, v, off, line);
    }
    if k == goal {
        return problem_table::finish_act(table);
    }
    mark_of(table, k - goal - 1)
}
