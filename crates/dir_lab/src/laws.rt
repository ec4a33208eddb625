//! Laws on the definition of answers.
ghost use Rattle.dir_lab.specs.Exact.{SuccessIsExact};

/// An answer with success shows exactly the entries in scope whose filter value is True, each once, in order of number,
/// with just the selected attributes: a law on the definition of answers over the directory of any updates, so its body
/// is empty. The root DSE is the one entry of its own search, and is not spoken of here.
pub fn success_is_exact()
    ensures { SuccessIsExact }
{}
