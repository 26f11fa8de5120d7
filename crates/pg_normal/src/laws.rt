//! A file has one answer: its forms, which are written in one way, or one fault of its names.
ghost use Rattle.std.specs.Prelude.{◌≡◌, List};
ghost use Rattle.pg_text.specs.Contents.{Contents};
ghost use Rattle.pg_normal.specs.declared.normal.Normal.{Normal};
ghost use Rattle.pg_normal.specs.declared.naming.NameFault.{NameFault as Fault};
ghost use Rattle.pg_normal.specs.declared.naming.NameFault.TheVariants as fault;
ghost use Rattle.pg_normal.specs.Listing.{normal_text};
ghost use Rattle.pg_normal.specs.Naming.{IsNameFault};
ghost use Rattle.pg_normal.specs.Normals.{AreNormalsOf};

/// Two lists that are both the forms of a file are written alike.
pub fn one_normal_text()
    ensures { (f : Contents) (xs ys : List Normal) → AreNormalsOf f xs → AreNormalsOf f ys → normal_text f xs ≡ normal_text f ys }
{}

/// Want of memory aside, a file has one fault of names at most.
pub fn one_name_fault()
    ensures { (f : Contents) (x y : Fault) → IsNameFault f x → IsNameFault f y → (x ≡ fault.Memory → ⊥) → (y ≡ fault.Memory → ⊥) → x ≡ y }
{}

/// A file that has forms has no fault of names but want of memory.
pub fn forms_have_no_fault()
    ensures { (f : Contents) (xs : List Normal) (x : Fault) → AreNormalsOf f xs → IsNameFault f x → x ≡ fault.Memory }
{}
