//! The lines of notes.
ghost use Rattle.std.specs.Prelude.{◌≡◌, ◌++◌, ◌∷◌, [], codes, OnOk};
ghost use Rattle.std.specs.List.{flat_map};
ghost use Rattle.unit_drawing.specs.Notes.{note_line, note_lines, place_text, step_text};

use crate::put::put_numbered;
use flow_value::{NoMemory, Text};
use mark_units::Note;
use take_marks::Why;

fn add_path(labels: &[u32], text: &mut Text) -> Result<(), NoMemory>
    ensures { OnOk result (text.new ≡ text.old ++ flat_map step_text labels.now) }
{
    for label in labels {
        put_numbered(text, b" ", *label)?;
    }
    Ok(())
}

fn add_place(note: &Note, text: &mut Text) -> Result<(), NoMemory>
    ensures { OnOk result (text.new ≡ text.old ++ place_text note.now) }
{
    put_numbered(text, b"C graph ", note.graph)?;
    put_numbered(text, b" node ", note.node)?;
    put_numbered(text, b" port ", note.port)
}

fn add_twice(note: &Note, text: &mut Text) -> Result<(), NoMemory>
    ensures { OnOk result (text.new ≡ text.old ++ (place_text note.now ++ (codes " twice" ++ 10 ∷ []))) }
{
    add_place(note, text)?;
    text.extend(b" twice")?;
    text.add(b'\n')
}

fn add_blocked(note: &Note, path: &[u32], text: &mut Text) -> Result<(), NoMemory>
    ensures { OnOk result (text.new ≡ text.old ++ ((place_text note.now ++ codes " blocked") ++ (flat_map step_text path.now ++ 10 ∷ []))) }
{
    add_place(note, text)?;
    text.extend(b" blocked")?;
    add_path(path, text)?;
    text.add(b'\n')
}

fn add_note(note: &Note, text: &mut Text) -> Result<(), NoMemory>
    ensures { OnOk result (text.new ≡ text.old ++ note_line note.now) }
{
    match &note.why {
        Why::Kept | Why::Taken => Ok(()),
        Why::Twice => add_twice(note, text),
        Why::Blocked(path) => add_blocked(note, path.as_slice(), text),
    }
}

/// Adds a comment line for each edge that is noted and does not take: its graph, node and port, and
/// either `twice` or `blocked` with the labels on the way from its node to the other user, 0 for the
/// boundary.
pub fn add_notes(notes: &[Note], text: &mut Text) -> Result<(), NoMemory>
    ensures { OnOk result (text.new ≡ text.old ++ note_lines notes.now) }
{
    for note in notes {
        add_note(note, text)?;
    }
    Ok(())
}
