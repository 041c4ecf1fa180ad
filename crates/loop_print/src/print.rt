// The canonical text of a nest.
ghost use Rattle.std.specs.Prelude.{◌≡◌, IfOk};
ghost use Rattle.std.specs.String.{string_bytes};
ghost use Rattle.loop_lines.specs.Plain.{HasNames};
ghost use Rattle.loop_print.specs.PrintText.{nest_text};

use crate::heads::put_heads;
use crate::items::put_loop;
use crate::order::heads_of;
use loop_core::nest::Nest;
use std::alloc::Global;
use wave_base::types::Memory;

/// The text of a nest, whether it is one of the language or not.
fn bytes_of(alloc: Global, nest: &Nest) -> Result<Vec<u8>, Memory>
    ensures { IfOk result (λ text. text.items ≡ nest_text nest.now) }
{
    let mut text = Vec::new(alloc);
    put_heads(&mut text, nest.decls.as_slice(), heads_of(nest))?;
    put_loop(&mut text, nest)?;
    Ok(text)
}

/// The canonical text of a nest, which is ASCII and ends with a line feed. Declarations,
/// locals and properties stand in the order of their lines. It fails out of memory alone. The work
/// is linear in the length of the text, and each array's name is looked up among the declarations.
#[tactic(auto, using(crate::proofs::PrintNestAscii::nest_utf8))]
pub fn print(alloc: Global, nest: &Nest) -> Result<String, Memory>
    requires { HasNames nest.now }
    ensures { IfOk result (λ text. string_bytes text ≡ nest_text nest.now) }
{
    let bytes = bytes_of(alloc, nest)?;
    match String::from_utf8(bytes) {
        Ok(text) => Ok(text),
        Err(_) => unreachable!(),
    }
}
