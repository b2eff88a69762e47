//! What a type is made of.
ghost use Rattle.std.specs.Prelude.{◌≡◌, Some, slice_get, option_map, IfSome};
ghost use Rattle.type_table.specs.Forms.{members_of};

use flow_value::Seq;

/// A member of a record or union: its name, by its number among the names of the text, and its
/// type, by its number in the table.
#[derive(Clone, Copy)]
pub struct Member {
    /// The name.
    pub name: u32,
    /// The type.
    pub ty: usize,
}

/// What a type is made of; a part is named by its number in the table.
pub enum Form {
    /// `boolean`
    Boolean,
    /// `character`
    Character,
    /// `integer`
    Integer,
    /// `null`
    Null,
    /// `array [t]`
    Array(usize),
    /// `stream [t]`
    Stream(usize),
    /// `record [name : t; ..]`, the fields in order.
    Record(Seq<Member>),
    /// `union [name : t; ..]`, the tags in order.
    Union(Seq<Member>),
}

impl Drop for Form {
    fn drop(self) {
        match self {
            Form::Boolean => {}
            Form::Character => {}
            Form::Integer => {}
            Form::Null => {}
            Form::Array(_) => {}
            Form::Stream(_) => {}
            Form::Record(_part) => {}
            Form::Union(_part) => {}
        }
    }
}

/// The fields of a record, the tags of a union.
pub fn members_of(form: &Form) -> &[Member]
    ensures { result.now ≡ members_of form.now }
{
    match form {
        Form::Record(members) | Form::Union(members) => members.as_slice(),
        _ => &[],
    }
}
