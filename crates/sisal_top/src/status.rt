//! How a call ends.
ghost use Rattle.std.specs.Prelude.{◌≡◌};
ghost use Rattle.sisal_top.specs.Status.{code_of, of_value};

use compile_call::TranslateFault;
use flow_value::{Name, NoMemory};
use if1_graph::If1Fault;
use mean_call::{ArgumentFault, Refusal};
use run_words::WordFault;
use sisal_lex::LexFault;
use sisal_parse::ParseFault;
use type_rules::TypeFault;
use value_text::ValueFault;

/// How a call ends, with its cause.
#[derive(Drop)]
pub enum Status {
    /// All is done.
    Done,
    /// The words are refused: their first fault from the left.
    Usage(UsageFault),
    /// A read of the text failed.
    ReadFault,
    /// A write of the results failed.
    WriteFault,
    /// Want of memory.
    NoMemory,
    /// The text is no unit of the grammar.
    Syntax(SyntaxFault),
    /// The unit breaks a rule of typing.
    Typing {
        /// The number of the rule, from 1; 24 where the program's graphs would be too large or too many.
        rule: u8,
        /// The line, from 1.
        line: u32,
    },
    /// The text is no valid IF1 unit with sound marks.
    If1(UnitFault),
    /// The entry or an argument is refused.
    Argument(CallFault),
    /// The run is longer than its limit.
    TurnLimit,
    /// The text is longer than its limit.
    TooLong,
    /// What the words ask for is not built yet.
    Later,
    /// A function stands in another text: the first one's name.
    Unlinked(Name),
}

/// Why a text is no unit of the grammar.
#[derive(Clone, Copy)]
pub enum SyntaxFault {
    /// A byte that begins no token, by its line.
    BadByte(u32),
    /// A number that is too wide, by its line.
    NumberTooWide(u32),
    /// A character or text that is not closed in its line, or has another item, by its line.
    OpenText(u32),
    /// The first token with which no unit goes on.
    Token {
        /// Its number, from 1; one more than there are tokens where the text ends early.
        token: u32,
        /// Its line.
        line: u32,
    },
    /// An expression that nests deeper than 200, by the line on which it begins.
    TooDeep(u32),
}

/// The first fault of the words from the left. Words count from 1.
#[derive(Clone, Copy)]
pub enum UsageFault {
    /// A further word is wanted.
    Missing,
    /// This word is none that may stand there.
    Unknown(usize),
    /// The option that this word names was given before.
    Repeated(usize),
    /// This word stands for a number, and is none.
    NotANumber(usize),
    /// The number of this word is outside its range.
    OutOfRange(usize),
}

/// Why a text is no valid IF1 unit with sound marks. A line counts from 1; a graph is named by its
/// number and a node by its label, 0 for the boundary of the graph.
#[derive(Clone, Copy)]
pub enum UnitFault {
    /// A line of another form, a label twice, or a literal that its type does not have.
    BadLine(u32),
    /// An opcode, a type, a function or a reduction that is not known.
    Unknown(u32),
    /// A type that holds reals or the wild type.
    Real(u32),
    /// The text ends inside a compound node.
    Unclosed,
    /// The node reaches itself along data edges.
    Cycle {
        graph: u32,
        node: u32,
    },
    /// The node's ports are not filled as the tables say.
    Ports {
        graph: u32,
        node: u32,
    },
    /// An edge or literal into the node has a wrong type.
    TypeOf {
        graph: u32,
        node: u32,
    },
    /// The marks of the port are not sound.
    Marks {
        graph: u32,
        node: u32,
        port: u32,
        reader: u32,
    },
    /// The line that passes a limit on nodes, types or levels.
    TooMany(u32),
}

/// Why the entry or an argument is refused.
#[derive(Clone, Copy)]
pub enum CallFault {
    /// No function has the entry's name.
    Entry,
    /// There are not as many words as parameters.
    Count {
        /// How many parameters the function has.
        wanted: usize,
        /// How many words there are.
        given: usize,
    },
    /// A word is no value of its parameter's type.
    Value {
        /// The number of the word, from 1.
        argument: usize,
        /// What is wrong with it.
        fault: TextFault,
    },
}

/// Why a word is no value of a type.
#[derive(Clone, Copy)]
pub enum TextFault {
    /// It is no value text: the first byte, from 0, at which no value text goes on.
    BadSpelling(usize),
    /// It is a value text and not of the type: the first byte of the leftmost part of another form.
    WrongShape(usize),
    /// It is a value text past a limit.
    TooLarge,
}

impl Status {
    /// The number that the program ends with, from 0 to 12.
    pub fn code(&self) -> u8
        ensures { result ≡ code_of self.now }
    {
        match self {
            Status::Done => 0,
            Status::Usage(_) => 1,
            Status::ReadFault => 2,
            Status::WriteFault => 3,
            Status::NoMemory => 4,
            Status::Syntax(_) => 5,
            Status::Typing { .. } => 6,
            Status::If1(_) => 7,
            Status::Argument(_) => 8,
            Status::TurnLimit => 9,
            Status::TooLong => 10,
            Status::Later => 11,
            Status::Unlinked(_) => 12,
        }
    }
}

impl From<NoMemory> for Status {
    ghost use Rattle.sisal_top.specs.declared.status.Status.TheVariants as status;

    ghost from_gives = { λ _ s. s ≡ status.NoMemory };

    fn from(_: NoMemory) -> Status {
        Status::NoMemory
    }
}

impl From<WordFault> for Status {
    ghost use Rattle.sisal_top.specs.Status.{of_words};

    ghost from_gives = { λ f s. s ≡ of_words f };

    fn from(fault: WordFault) -> Status {
        match fault {
            WordFault::Missing => Status::Usage(UsageFault::Missing),
            WordFault::Unknown(word) => Status::Usage(UsageFault::Unknown(word)),
            WordFault::Repeated(word) => Status::Usage(UsageFault::Repeated(word)),
            WordFault::NotANumber(word) => Status::Usage(UsageFault::NotANumber(word)),
            WordFault::OutOfRange(word) => Status::Usage(UsageFault::OutOfRange(word)),
            WordFault::NoMemory => Status::NoMemory,
        }
    }
}

impl From<LexFault> for Status {
    ghost use Rattle.sisal_top.specs.Status.{of_lexer};

    ghost from_gives = { λ f s. s ≡ of_lexer f };

    fn from(fault: LexFault) -> Status {
        match fault {
            LexFault::BadByte(line) => Status::Syntax(SyntaxFault::BadByte(line)),
            LexFault::NumberTooWide(line) => Status::Syntax(SyntaxFault::NumberTooWide(line)),
            LexFault::OpenText(line) => Status::Syntax(SyntaxFault::OpenText(line)),
            LexFault::TooLong => Status::TooLong,
            LexFault::NoMemory => Status::NoMemory,
        }
    }
}

impl From<ParseFault> for Status {
    ghost use Rattle.sisal_top.specs.Status.{of_parser};

    ghost from_gives = { λ f s. s ≡ of_parser f };

    fn from(fault: ParseFault) -> Status {
        match fault {
            ParseFault::Syntax { token, line } => Status::Syntax(SyntaxFault::Token {
                token,
                line,
            }),
            ParseFault::TooDeep(line) => Status::Syntax(SyntaxFault::TooDeep(line)),
            ParseFault::NoMemory => Status::NoMemory,
        }
    }
}

impl From<TypeFault> for Status {
    ghost use Rattle.sisal_top.specs.Status.{of_checker};

    ghost from_gives = { λ f s. s ≡ of_checker f };

    fn from(fault: TypeFault) -> Status {
        match fault {
            TypeFault::Rule { rule, line } => Status::Typing { rule, line },
            TypeFault::NoMemory => Status::NoMemory,
        }
    }
}

impl From<TranslateFault> for Status {
    ghost use Rattle.sisal_top.specs.Status.{of_translator};

    ghost from_gives = { λ f s. s ≡ of_translator f };

    fn from(fault: TranslateFault) -> Status {
        match fault {
            TranslateFault::TooMany { line } => Status::Typing { rule: 24, line },
            TranslateFault::NoMemory => Status::NoMemory,
        }
    }
}

/// The status of a word that is no value of its parameter's type.
fn of_word(argument: usize, fault: ValueFault) -> Status
    ensures { result ≡ of_value argument fault }
{
    match fault {
        ValueFault::BadSpelling(byte) => of_text(argument, TextFault::BadSpelling(byte)),
        ValueFault::WrongShape(byte) => of_text(argument, TextFault::WrongShape(byte)),
        ValueFault::TooLarge => of_text(argument, TextFault::TooLarge),
        ValueFault::NoMemory => Status::NoMemory,
    }
}

/// The status of a fault of a word.
fn of_text(argument: usize, fault: TextFault) -> Status
    ensures { result ≡ Status.Argument (CallFault.Value argument fault) }
{
    Status::Argument(CallFault::Value { argument, fault })
}

impl From<ArgumentFault> for Status {
    ghost use Rattle.sisal_top.specs.Status.{of_argument};

    ghost from_gives = { λ f s. s ≡ of_argument f };

    fn from(fault: ArgumentFault) -> Status {
        match fault {
            ArgumentFault::Entry => Status::Argument(CallFault::Entry),
            ArgumentFault::Count { wanted, given } => {
                Status::Argument(CallFault::Count { wanted, given })
            }
            ArgumentFault::Value { argument, fault } => of_word(argument, fault),
        }
    }
}

impl From<Refusal> for Status {
    ghost use Rattle.sisal_top.specs.Status.{of_refusal};

    ghost from_gives = { λ r s. s ≡ of_refusal r };

    fn from(refusal: Refusal) -> Status {
        match refusal {
            Refusal::Unlinked(name) => Status::Unlinked(name),
            Refusal::Argument(fault) => Status::from(fault),
            Refusal::TurnLimit => Status::TurnLimit,
            Refusal::NoMemory => Status::NoMemory,
        }
    }
}

impl From<If1Fault> for Status {
    ghost use Rattle.sisal_top.specs.Status.{of_unit};

    ghost from_gives = { λ f s. s ≡ of_unit f };

    fn from(fault: If1Fault) -> Status {
        match fault {
            If1Fault::BadLine(line) => Status::If1(UnitFault::BadLine(line)),
            If1Fault::Unknown(line) => Status::If1(UnitFault::Unknown(line)),
            If1Fault::Real(line) => Status::If1(UnitFault::Real(line)),
            If1Fault::Unclosed => Status::If1(UnitFault::Unclosed),
            If1Fault::Cycle { graph, node } => Status::If1(UnitFault::Cycle { graph, node }),
            If1Fault::Ports { graph, node } => Status::If1(UnitFault::Ports { graph, node }),
            If1Fault::TypeOf { graph, node } => Status::If1(UnitFault::TypeOf { graph, node }),
            If1Fault::Marks {
                graph,
                node,
                port,
                reader,
            } => Status::If1(UnitFault::Marks {
                graph,
                node,
                port,
                reader,
            }),
            If1Fault::TooMany(line) => Status::If1(UnitFault::TooMany(line)),
            If1Fault::NoMemory => Status::NoMemory,
        }
    }
}
