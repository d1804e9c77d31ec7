//! Reading an object.

ghost use Rattle.std.specs.Prelude.{◌≡◌, ◌≤◌, length, IfOk, IsOkAnd};
ghost use Rattle.std.specs.Result.{result_err};
ghost use Rattle.avr_elf.specs.Faults.{elf_fault};
ghost use Rattle.avr_elf.specs.Object.{Object, object_of, IsObject};

use crate::fault::ElfFault;
use crate::file_header::file_header_fault;
use crate::sections::sections_fault;
use crate::tables::checked_symtab;
use crate::view::ObjectView;

/// Reads an object of at most 1,048,576 bytes: a view of it, or the first of its faults in the order of
/// the checks. It takes no memory, and time in proportion to the sections, symbols and relocations
/// that the tables hold.
pub fn read_object(file: &[u8]) -> Result<ObjectView<'_>, ElfFault>
    requires { length file.now ≤ 1048576 }
    ensures fault { result_err result ≡ elf_fault file.now }
    ensures object { IfOk result (λ o. o ≡ object_of file.now) }
    ensures meant { IfOk result (λ o. IsObject file.now o) }
    ensures whole { (o : Object) → IsObject file.now o → IsOkAnd result (λ seen. seen ≡ o) }
{
    if let Some(fault) = file_header_fault(file) {
        return Err(fault);
    }
    if let Some(fault) = sections_fault(file) {
        return Err(fault);
    }
    let symtab = checked_symtab(file)?;
    Ok(ObjectView::new(file, symtab))
}
