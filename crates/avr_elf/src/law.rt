//! What holds of the definitions of an object.

ghost use Rattle.avr_elf.specs.Laws.{NoFaultMeansObject, MeansOneObject, MeansWellFormed};

/// Bytes have no fault exactly where some object is meant by them.
pub fn no_fault_means_object()
    ensures { NoFaultMeansObject }
{}

/// No bytes mean two objects.
pub fn means_one_object()
    ensures { MeansOneObject }
{}

/// Each object that is meant is well formed.
pub fn means_well_formed()
    ensures { MeansWellFormed }
{}
