//! The laws on what is wrong with lines.

ghost use Rattle.uv_script.specs.Amiss.{LineIsAmiss, ScriptIsAmiss};

/// Something is wrong with a line exactly where it is outside the language.
pub fn line_is_amiss()
    ensures { LineIsAmiss }
{}

/// The line with which something is wrong is the first that is outside the language, and there is none where bytes are a script.
pub fn script_is_amiss()
    ensures { ScriptIsAmiss }
{}
