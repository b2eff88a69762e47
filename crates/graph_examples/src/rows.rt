//! What each node gives, by example: one for each row of the table.
ghost use Rattle.graph_examples.specs.RowExamples.{AreScalarRows, AreListRows, AreRecordRows, AreFoldRows, AreLoopRows};
ghost use Rattle.if1_graph.specs.declared.op.Grouping.{Grouping};

/// Each row of scalar nodes on small operands.
pub fn scalar_rows_give()
    ensures { AreScalarRows }
{}

/// Each row of nodes on arrays and streams on small operands.
pub fn list_rows_give()
    ensures { AreListRows }
{}

/// Each row of nodes on records and unions on small operands.
pub fn record_rows_give()
    ensures { AreRecordRows }
{}

/// Each row of generators and folds on small operands, with each of the four reduction nodes.
pub fn fold_rows_give()
    ensures { (g : Grouping) → AreFoldRows g }
{}

/// Both loops on small inputs, and a loop that never ends.
pub fn loops_give()
    ensures { AreLoopRows }
{}
