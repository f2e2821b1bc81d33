ghost use Rattle.std.specs.Prelude.{◌≡◌, ◌++◌, codes, OnOk};
ghost use Rattle.lore_base.specs.Printed.{printed, label_text};
ghost use Rattle.dump_text.specs.Dumps.{line_of, mode_text, ended, label_line, name_line};
ghost use Rattle.dump_text.specs.Dumps.{object_line, edge_line};
ghost use Rattle.std.specs.Fmt.{decimal, signed_decimal};

use crate::printed::PrintedDump;
use itoa::Buffer;
use lore_base::{Mode, NoMemory, OemText, Oid, Out, Value};
use oem_atom::{print_label, print_value};

// Puts a line of a word and a number.
pub(crate) fn put_number_line(
    dump: &mut PrintedDump,
    word: &[u8],
    number: i64,
) -> Result<(), NoMemory>
    ensures { OnOk result
        (dump.new ≡ dump.old ++ ended (line_of word.now (signed_decimal number))) }
{
    dump.put(word)?;
    dump.push(b' ')?;
    dump.put(Buffer::new().format(number).as_bytes())?;
    dump.push(b'\n')
}

// Puts the line of the plan mode.
pub(crate) fn put_mode_line(dump: &mut PrintedDump, mode: Mode) -> Result<(), NoMemory>
    ensures { OnOk result
        (dump.new ≡ dump.old ++ ended (line_of (codes "plan") (mode_text mode))) }
{
    match mode {
        Mode::Auto => dump.put(b"plan auto\n"),
        Mode::Top => dump.put(b"plan top\n"),
        Mode::Bottom => dump.put(b"plan bottom\n"),
        Mode::Guided => dump.put(b"plan guide\n"),
    }
}

fn put_number(dump: &mut PrintedDump, number: u32) -> Result<(), NoMemory>
    ensures { OnOk result (dump.new ≡ dump.old ++ decimal number) }
{
    dump.put(Buffer::new().format(number).as_bytes())
}

fn put_label(dump: &mut PrintedDump, label: &OemText) -> Result<(), NoMemory>
    ensures { OnOk result (dump.new ≡ dump.old ++ label_text label.now) }
{
    print_label(label.as_bytes(), dump)
}

fn put_value(dump: &mut PrintedDump, value: &Value) -> Result<(), NoMemory>
    ensures { OnOk result (dump.new ≡ dump.old ++ printed value.now) }
{
    print_value(value, dump)
}

// Puts the line of a label.
pub(crate) fn put_label_line(dump: &mut PrintedDump, label: &OemText) -> Result<(), NoMemory>
    ensures { OnOk result (dump.new ≡ dump.old ++ ended (label_line label.now)) }
{
    dump.put(b"label ")?;
    put_label(dump, label)?;
    dump.push(b'\n')
}

// Puts the line of a name and its object.
pub(crate) fn put_name_line(
    dump: &mut PrintedDump,
    name: &OemText,
    oid: Oid,
) -> Result<(), NoMemory>
    ensures { OnOk result (dump.new ≡ dump.old ++ ended (name_line (name.now, oid))) }
{
    dump.put(b"name ")?;
    dump.put(name.as_bytes())?;
    dump.put(b" &")?;
    put_number(dump, oid.0)?;
    dump.push(b'\n')
}

// Puts the line of an object and its value.
pub(crate) fn put_object_line(
    dump: &mut PrintedDump,
    oid: Oid,
    value: &Value,
) -> Result<(), NoMemory>
    ensures { OnOk result (dump.new ≡ dump.old ++ ended (object_line (oid, value.now))) }
{
    dump.put(b"object &")?;
    put_number(dump, oid.0)?;
    dump.push(b' ')?;
    put_value(dump, value)?;
    dump.push(b'\n')
}

// Puts the line of an edge with the text of its label.
pub(crate) fn put_edge_line(
    dump: &mut PrintedDump,
    parent: Oid,
    label: &OemText,
    child: Oid,
) -> Result<(), NoMemory>
    ensures { OnOk result
        (dump.new ≡ dump.old ++ ended (edge_line (parent, label.now, child))) }
{
    dump.put(b"edge &")?;
    put_number(dump, parent.0)?;
    dump.push(b' ')?;
    put_label(dump, label)?;
    dump.put(b" &")?;
    put_number(dump, child.0)?;
    dump.push(b'\n')
}
