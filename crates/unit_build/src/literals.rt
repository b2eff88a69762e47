//! The canonical spelling of constants (IF1 manual M-170, literals).
ghost use Rattle.std.specs.Prelude.{◌≡◌, ◌<◌, ◌++◌, IfOk, OnOk};
ghost use Rattle.std.specs.Fmt.{signed_decimal};
ghost use Rattle.if1_graph.specs.Literals.{hex_of, item_text};
ghost use Rattle.lowered_units.specs.Units.{constant_text};

use flow_value::{NoMemory, Text};
use itoa::Buffer;
use sisal_tree::Constant;
use std::alloc::Global;

fn put_number(n: i64, to: &mut Text) -> Result<(), NoMemory>
    ensures { OnOk result (to.new ≡ to.old ++ signed_decimal n) }
{
    let mut buffer = Buffer::new();
    to.extend(buffer.format(n).as_bytes())
}

fn hex_of(n: u8) -> u8
    requires { n < 16 }
    ensures { result ≡ hex_of n }
{
    if n < 10 { b'0' + n } else { b'a' + (n - 10) }
}

fn put_item(c: u8, to: &mut Text) -> Result<(), NoMemory>
    ensures { OnOk result (to.new ≡ to.old ++ item_text c) }
{
    match c {
        b'\\' => to.extend(b"\\\\"),
        b'\'' => to.extend(b"\\'"),
        b'"' => to.extend(b"\\x22"),
        32..=126 => to.extend(&[c]),
        _ => to.extend(&[b'\\', b'x', hex_of(c / 16), hex_of(c % 16)]),
    }
}

fn put(constant: &Constant, to: &mut Text) -> Result<(), NoMemory>
    ensures { OnOk result (to.new ≡ to.old ++ constant_text constant.now) }
{
    match constant {
        Constant::Integer(n) => put_number(*n, to),
        Constant::Letter(c) => {
            to.extend(b"'")?;
            put_item(*c, to)?;
            to.extend(b"'")
        }
        Constant::Quoted(_) => Ok(()),
        Constant::True => to.extend(b"true"),
        Constant::False => to.extend(b"false"),
        Constant::Nil => to.extend(b"nil"),
    }
}

/// The canonical spelling of a constant; a text is no literal.
pub fn constant_text(alloc: Global, constant: &Constant) -> Result<Text, NoMemory>
    ensures { IfOk result (λ text. text ≡ constant_text constant.now) }
{
    let mut text = Text::new(alloc);
    put(constant, &mut text)?;
    Ok(text)
}
