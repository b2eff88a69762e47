//! The texts of `--help` and `--version`.
ghost use Rattle.std.specs.Prelude.{◌≡◌, IfOk};
ghost use Rattle.sisal_top.specs.Texts.{help_text, version_text};

use flow_value::{NoMemory, Seq, Text};
use std::alloc::Global;

const HELP: &[u8] = b"usage: sisal COMMAND [OPTIONS] [VALUES]
The program text is read from standard input.

run [OPTIONS] [VALUES]   runs the entry function and prints one result a line
mean [OPTIONS] [VALUES]  evaluates a SISAL text by the meaning of its source
compile [OPTION]         prints the graphs of a SISAL text as IF1, with their marks
if1                      checks an IF1 text and prints it in canonical form
gen N                    prints a generated program, N from 1 to 500
--help, --version        print this text, and the version

Options of run and mean: --entry NAME, --limit T; of run: --if1, the text is IF1,
--stats, a line of totals.
The word -- ends the options.
Options of compile: --dot prints a drawing for Graphviz, --why what copies, and why;
--code lists the code that runs.

To come, until then status 11: of run --workers above 1, --order above 0, --opt and
--trace; compile --opt; and
link                                      joins the parts of an IF1 text
verify [--entry NAME] [--limit T] [VALUES]
                                          checks the trace of a run
again [--if1] [--entry NAME] [--limit T] P NEW [VALUES]
                                          runs once more with argument P changed

Statuses: 0 done, 1 words, 2 reading, 3 writing, 4 memory, 5 no SISAL, 6 types,
7 no IF1, 8 entry or values, 9 limit, 10 too long, 11 to come, 12 a function of
another text. Each line that is printed has its heading in docs/ERRORS.md; commands
and options are told in docs/PROGRAM.md, the language in docs/TUTORIAL.md.
";

const VERSION: &[u8] = b"sisal 0.1 (SISAL 1.2 over whole numbers)
";

/// What `--help` prints.
pub fn help(alloc: Global) -> Result<Text, NoMemory>
    ensures { IfOk result (λ text. text ≡ help_text) }
{
    Seq::from_slice(alloc, HELP)
}

/// What `--version` prints.
pub fn version(alloc: Global) -> Result<Text, NoMemory>
    ensures { IfOk result (λ text. text ≡ version_text) }
{
    Seq::from_slice(alloc, VERSION)
}
