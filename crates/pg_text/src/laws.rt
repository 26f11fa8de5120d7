//! A text says one thing: it has one reading, or one fault.
ghost use Rattle.std.specs.Prelude.{◌≡◌, ℕ, List};
ghost use Rattle.pg_text.specs.declared.fault.FileFault.{FileFault as Fault};
ghost use Rattle.pg_text.specs.declared.fault.FileFault.TheVariants as fault;
ghost use Rattle.pg_text.specs.Contents.{Contents};
ghost use Rattle.pg_text.specs.Text.{IsFileOf, IsFileFault};
ghost use Rattle.pg_text.specs.Numbers.{NumbersStandForNames};

/// A text has one reading at most.
pub fn one_file()
    ensures { (bytes : List ℕ) (a b : Contents) → IsFileOf bytes a → IsFileOf bytes b → a ≡ b }
{}

/// Want of memory aside, a text has one fault at most: the number of its first bad line, or the first count that
/// passes its limit.
pub fn one_fault()
    ensures { (bytes : List ℕ) (f g : Fault) → IsFileFault bytes f → IsFileFault bytes g → (f ≡ fault.Memory → ⊥) → (g ≡ fault.Memory → ⊥) → f ≡ g }
{}

/// A text that has a reading has no fault but want of memory.
pub fn file_has_no_fault()
    ensures { (bytes : List ℕ) (file : Contents) (f : Fault) → IsFileOf bytes file → IsFileFault bytes f → f ≡ fault.Memory }
{}

/// The numbers in the trees of a file stand, one after another, for the operation names that are written in its text.
pub fn numbers_stand_for_names()
    ensures { NumbersStandForNames }
{}
