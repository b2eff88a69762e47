//! The options of the commands that run a program.
ghost use Rattle.std.specs.Prelude.{◌≡◌};
ghost use Rattle.run_words.specs.Options.{has, has_flag, has_setting, has_values, is_beside, no_options, takes, with_flag};
ghost use Rattle.run_words.specs.Reading.{Gives, option_named, option_of, with_setting};

use crate::fault::WordFault;
use crate::number::number_in;
use flow_value::Name;
use std::alloc::Global;

/// A command that has options.
#[derive(Clone, Copy, Debug, PartialEq, Eq)]
pub enum Runner {
    /// `run`
    Run,
    /// `mean`
    Mean,
    /// `compile`
    Compile,
    /// `verify`
    Verify,
    /// `again`
    Again,
}

/// An option that stands alone.
#[derive(Clone, Copy, Debug, PartialEq, Eq)]
pub enum Flag {
    /// `--if1`
    If1,
    /// `--stats`
    Stats,
    /// `--opt`
    Opt,
    /// `--trace`
    Trace,
    /// `--dot`
    Dot,
    /// `--why`
    Why,
    /// `--code`
    Code,
}

/// An option that takes the next word.
#[derive(Clone, Copy, Debug, PartialEq, Eq)]
pub enum Setting {
    /// `--entry`
    Entry,
    /// `--workers`
    Workers,
    /// `--limit`
    Limit,
    /// `--order`
    Order,
}

/// An option.
#[derive(Clone, Copy, Debug, PartialEq, Eq)]
pub enum Named {
    /// One that stands alone.
    Flag(Flag),
    /// One that takes the next word.
    Setting(Setting),
}

/// What the options say: `false` or `None` for one that is not given.
#[derive(Drop)]
pub struct Options {
    /// Whether there is `--if1`.
    pub if1: bool,
    /// The word after `--entry`.
    pub entry: Option<Name>,
    /// The number of workers.
    pub workers: Option<u32>,
    /// The limit.
    pub limit: Option<u64>,
    /// The order number.
    pub order: Option<u32>,
    /// Whether there is `--stats`.
    pub stats: bool,
    /// Whether there is `--opt`.
    pub opt: bool,
    /// Whether there is `--trace`.
    pub trace: bool,
    /// Whether there is `--dot`.
    pub dot: bool,
    /// Whether there is `--why`.
    pub why: bool,
    /// Whether there is `--code`.
    pub code: bool,
}

impl Runner {
    /// Whether values may follow the options.
    pub fn has_values(self) -> bool
        ensures { result ≡ has_values self }
    {
        !matches!(self, Runner::Compile)
    }

    /// Whether the command has the option.
    fn has(self, option: Named) -> bool
        ensures { result ≡ has self option }
    {
        match option {
            Named::Flag(Flag::If1) => matches!(self, Runner::Run | Runner::Again),
            Named::Flag(Flag::Opt) => matches!(self, Runner::Run | Runner::Compile),
            Named::Flag(Flag::Dot) | Named::Flag(Flag::Why) | Named::Flag(Flag::Code) => {
                matches!(self, Runner::Compile)
            }
            Named::Setting(Setting::Entry) | Named::Setting(Setting::Limit) => {
                !matches!(self, Runner::Compile)
            }
            Named::Flag(Flag::Stats)
            | Named::Flag(Flag::Trace)
            | Named::Setting(Setting::Workers)
            | Named::Setting(Setting::Order) => matches!(self, Runner::Run),
        }
    }

    /// Whether the command takes the option beside those given.
    fn takes(self, given: &Options, option: Named) -> bool
        ensures { result ≡ takes self given.now option }
    {
        self.has(option) && given.may_stand_beside(option)
    }

    /// The option of the command that a word names, where it may stand beside those given.
    pub fn option_of(self, given: &Options, word: &str) -> Option<Named>
        ensures { result ≡ option_of self given.now word.now }
    {
        match option_named(word) {
            Some(option) if self.takes(given, option) => Some(option),
            _ => None,
        }
    }
}

/// The option of any command that a word names.
fn option_named(word: &str) -> Option<Named>
    ensures { result ≡ option_named word.now }
{
    if word == "--if1" {
        Some(Named::Flag(Flag::If1))
    } else if word == "--stats" {
        Some(Named::Flag(Flag::Stats))
    } else if word == "--opt" {
        Some(Named::Flag(Flag::Opt))
    } else if word == "--trace" {
        Some(Named::Flag(Flag::Trace))
    } else if word == "--dot" {
        Some(Named::Flag(Flag::Dot))
    } else if word == "--why" {
        Some(Named::Flag(Flag::Why))
    } else if word == "--code" {
        Some(Named::Flag(Flag::Code))
    } else if word == "--entry" {
        Some(Named::Setting(Setting::Entry))
    } else if word == "--workers" {
        Some(Named::Setting(Setting::Workers))
    } else if word == "--limit" {
        Some(Named::Setting(Setting::Limit))
    } else if word == "--order" {
        Some(Named::Setting(Setting::Order))
    } else {
        None
    }
}

impl Options {
    /// No option is given.
    pub fn none() -> Options
        ensures { result ≡ no_options }
    {
        Options {
            if1: false,
            entry: None,
            workers: None,
            limit: None,
            order: None,
            stats: false,
            opt: false,
            trace: false,
            dot: false,
            why: false,
            code: false,
        }
    }

    /// Whether an option may stand beside these: of `--dot`, `--why` and `--code` one stands alone.
    fn may_stand_beside(&self, option: Named) -> bool
        ensures { result ≡ is_beside self.now option }
    {
        match option {
            Named::Flag(Flag::Dot) => !(self.why || self.code),
            Named::Flag(Flag::Why) => !(self.dot || self.code),
            Named::Flag(Flag::Code) => !(self.dot || self.why),
            _ => true,
        }
    }

    /// Whether the flag is given.
    pub fn has_flag(&self, flag: Flag) -> bool
        ensures { result ≡ has_flag self.now flag }
    {
        match flag {
            Flag::If1 => self.if1,
            Flag::Stats => self.stats,
            Flag::Opt => self.opt,
            Flag::Trace => self.trace,
            Flag::Dot => self.dot,
            Flag::Why => self.why,
            Flag::Code => self.code,
        }
    }

    /// Whether the setting is given.
    pub fn has_setting(&self, setting: Setting) -> bool
        ensures { result ≡ has_setting self.now setting }
    {
        match setting {
            Setting::Entry => self.entry.is_some(),
            Setting::Workers => self.workers.is_some(),
            Setting::Limit => self.limit.is_some(),
            Setting::Order => self.order.is_some(),
        }
    }

    /// These options and the flag.
    pub fn with_flag(self, flag: Flag) -> Options
        ensures { result ≡ with_flag self flag }
    {
        match flag {
            Flag::If1 => Options { if1: true, ..self },
            Flag::Stats => Options {
                stats: true,
                ..self
            },
            Flag::Opt => Options { opt: true, ..self },
            Flag::Trace => Options {
                trace: true,
                ..self
            },
            Flag::Dot => Options { dot: true, ..self },
            Flag::Why => Options { why: true, ..self },
            Flag::Code => Options { code: true, ..self },
        }
    }

    /// These options and the setting, with the value that word `place` has.
    pub fn with_setting(
        self,
        alloc: Global,
        setting: Setting,
        place: usize,
        word: &str,
    ) -> Result<Options, WordFault>
        ensures { Gives result (with_setting self setting place word.now) }
    {
        match setting {
            Setting::Entry => {
                let name = Name::from_slice(alloc, word.as_bytes())?;
                Ok(Options {
                    entry: Some(name),
                    ..self
                })
            }
            Setting::Workers => {
                let workers = number_in(word, place, 1, 16)? as u32;
                Ok(Options {
                    workers: Some(workers),
                    ..self
                })
            }
            Setting::Limit => {
                let limit = number_in(word, place, 1, 1099511627776)?;
                Ok(Options {
                    limit: Some(limit),
                    ..self
                })
            }
            Setting::Order => {
                let order = number_in(word, place, 0, 4294967295)? as u32;
                Ok(Options {
                    order: Some(order),
                    ..self
                })
            }
        }
    }
}
