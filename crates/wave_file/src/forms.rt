//! The lines of a wave file, each appended to a text.

ghost use Rattle.std.specs.Prelude.{◌≡◌, ◌<◌, ◌++◌, OnOk};
ghost use Rattle.std.specs.List.{flat_map};
ghost use Rattle.wave_file.specs.Waves.{id_of, var_spelling, value_spelling_of, time_mark};

use crate::id::id_text;
use itoa::Buffer;
use std::alloc::AllocError;

/// Appends the pieces.
pub fn append(to: &mut Vec<u8>, pieces: &[&[u8]]) -> Result<(), AllocError>
    ensures { OnOk result (to.new.items ≡ to.old.items ++ flat_map (λ piece. piece.now) pieces.now) }
{
    for piece in pieces {
        to.extend_from_slice(piece)?;
    }
    Ok(())
}

/// Appends the line that names a node.
pub fn var_line(node: u32, name: &[u8], to: &mut Vec<u8>) -> Result<(), AllocError>
    requires { node < 830584 }
    ensures { OnOk result (to.new.items ≡ to.old.items ++ var_spelling node name.now) }
{
    append(to, &[b"$var wire 1 "])?;
    id_text(node, to)?;
    append(to, &[b" ", name, b" $end\n"])
}

/// Appends the line of a node's new value.
pub fn value_line(value: bool, node: u32, to: &mut Vec<u8>) -> Result<(), AllocError>
    requires { node < 830584 }
    ensures { OnOk result (to.new.items ≡ to.old.items ++ value_spelling_of value (id_of node)) }
{
    let sign: &[u8] = if value { b"1" } else { b"0" };
    append(to, &[sign])?;
    id_text(node, to)?;
    append(to, &[b"\n"])
}

/// Appends the mark of a time.
pub fn time_line(time: u64, to: &mut Vec<u8>) -> Result<(), AllocError>
    ensures { OnOk result (to.new.items ≡ to.old.items ++ time_mark time) }
{
    let mut buffer = Buffer::new();
    append(to, &[b"#", buffer.format(time).as_bytes(), b"\n"])
}
