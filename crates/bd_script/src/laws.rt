//! What holds of the definitions. Each law is the contract of a function with nothing to do.
ghost use Rattle.bd_script.specs.Numbers.{NumbersAreTheirDigits};
ghost use Rattle.bd_script.specs.Scripts.{ScriptsAreReadBack};

/// A number is spelled in one way, by its decimal digits.
pub fn numbers_are_their_digits()
    ensures { NumbersAreTheirDigits }
{}

/// Of a script that was written of commands, a line for each, only these are read, and no line of it is bad.
pub fn scripts_are_read_back()
    ensures { ScriptsAreReadBack }
{}
