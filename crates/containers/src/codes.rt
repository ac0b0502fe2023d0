// Literals by their codes: of number k, `2k` says that it is true and `2k + 1` that it is false. Numbers are those of the
// variables of a formula, or of the facts of a task.
ghost use Rattle.std.specs.Prelude.{◌≡◌};
ghost use Rattle.containers.specs.Codes.{opposite};

/// The literal that says the contrary.
pub fn opposite(code: u32) -> u32
    ensures { result ≡ opposite code }
{
    code ^ 1
}
