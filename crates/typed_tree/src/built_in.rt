//! Calls that are built in.
ghost use Rattle.std.specs.Prelude.{◌≡◌, map};
ghost use Rattle.sisal_tree.specs.Words.{beside, plain_row};
ghost use Rattle.typed_tree.specs.BuiltIns.{built_ins};

/// A call that is built in: SISAL Language Reference Manual 1.2, operations on numbers, arrays and
/// streams.
#[derive(Clone, Copy, Debug, PartialEq, Eq)]
pub enum BuiltIn {
    /// `mod(a, b)`
    Mod,
    /// `abs(a)`
    Abs,
    /// `max(a, b)`
    Max,
    /// `min(a, b)`
    Min,
    /// `array_fill(low, high, v)`
    ArrayFill,
    /// `array_addh(a, v)`
    ArrayAddHigh,
    /// `array_addl(a, v)`
    ArrayAddLow,
    /// `array_remh(a)`
    ArrayRemoveHigh,
    /// `array_reml(a)`
    ArrayRemoveLow,
    /// `array_setl(a, low)`
    ArraySetLow,
    /// `array_adjust(a, low, high)`
    ArrayAdjust,
    /// `array_liml(a)`
    ArrayLimitLow,
    /// `array_limh(a)`
    ArrayLimitHigh,
    /// `array_size(a)`
    ArraySize,
    /// `stream_append(s, v)`
    StreamAppend,
    /// `stream_size(s)`
    StreamSize,
    /// `stream_empty(s)`
    StreamEmpty,
    /// `stream_first(s)`
    StreamFirst,
    /// `stream_rest(s)`
    StreamRest,
}

const NAMES: [(&[u8], BuiltIn); 19] = [
    (b"mod", BuiltIn::Mod),
    (b"abs", BuiltIn::Abs),
    (b"max", BuiltIn::Max),
    (b"min", BuiltIn::Min),
    (b"array_fill", BuiltIn::ArrayFill),
    (b"array_addh", BuiltIn::ArrayAddHigh),
    (b"array_addl", BuiltIn::ArrayAddLow),
    (b"array_remh", BuiltIn::ArrayRemoveHigh),
    (b"array_reml", BuiltIn::ArrayRemoveLow),
    (b"array_setl", BuiltIn::ArraySetLow),
    (b"array_adjust", BuiltIn::ArrayAdjust),
    (b"array_liml", BuiltIn::ArrayLimitLow),
    (b"array_limh", BuiltIn::ArrayLimitHigh),
    (b"array_size", BuiltIn::ArraySize),
    (b"stream_append", BuiltIn::StreamAppend),
    (b"stream_size", BuiltIn::StreamSize),
    (b"stream_empty", BuiltIn::StreamEmpty),
    (b"stream_first", BuiltIn::StreamFirst),
    (b"stream_rest", BuiltIn::StreamRest),
];

/// The call of a name, if it is built in.
pub fn built_in_named(name: &[u8]) -> Option<BuiltIn>
    ensures { result ≡ beside name.now built_ins }
{
    named_in(&NAMES, name)
}

fn named_in(table: &[(&[u8], BuiltIn)], name: &[u8]) -> Option<BuiltIn>
    ensures { result ≡ beside name.now (map plain_row table.now) }
{
    for (row, built_in) in table {
        if *row == name {
            return Some(*built_in);
        }
    }
    None
}
