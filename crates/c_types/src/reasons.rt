//! The numbers of the reasons for which a text or a report is refused (docs/SUBSET.md, docs/COMMANDS.md). What is
//! said of each stands in cmd_words.

/// The text has too many bytes: more than 1,048,576, or for `run` and of a report more than 67,108,864.
pub const TEXT_TOO_LONG: u32 = 1;
/// A byte begins no token.
pub const NO_TOKEN: u32 = 2;
/// A comment has no end.
pub const COMMENT_WITHOUT_END: u32 = 3;
/// A character constant or a string is none of the subset.
pub const BAD_CHARACTERS: u32 = 4;
/// An integer constant has no kind, or bad digits.
pub const BAD_INTEGER: u32 = 5;
/// A directive is none of the subset.
pub const BAD_DIRECTIVE: u32 = 6;
/// A token doesn't go on with any production.
pub const UNEXPECTED_TOKEN: u32 = 10;
/// What is open is nested too deeply.
pub const TOO_DEEP: u32 = 11;
/// A name isn't declared.
pub const NOT_DECLARED: u32 = 20;
/// A name is declared twice in one scope.
pub const DECLARED_TWICE: u32 = 21;
/// A name or a value is of another kind than is wanted.
pub const WRONG_KIND: u32 = 22;
/// A call has more or fewer arguments than parameters.
pub const WRONG_COUNT: u32 = 23;
/// What gives nothing is used as a value.
pub const VOID_USED: u32 = 24;
/// A `return` doesn't fit the function's result.
pub const RETURN_UNFIT: u32 = 25;
/// What is constant is assigned.
pub const CONST_ASSIGNED: u32 = 26;
/// A `break` stands outside of loops and switches.
pub const BREAK_OUTSIDE: u32 = 27;
/// A `continue` stands outside of loops.
pub const CONTINUE_OUTSIDE: u32 = 28;
/// A case or `default` stands outside of switches.
pub const CASE_OUTSIDE: u32 = 29;
/// Two cases of a switch are equal.
pub const EQUAL_CASES: u32 = 30;
/// A switch has a second `default`.
pub const SECOND_DEFAULT: u32 = 31;
/// A label stands twice in a function.
pub const LABEL_TWICE: u32 = 32;
/// A `goto` names no label of its function.
pub const UNKNOWN_LABEL: u32 = 33;
/// An expression isn't constant, or no `int`, where it must be.
pub const NOT_CONSTANT: u32 = 34;
/// An array has a bad size, or its initialisers don't fit.
pub const BAD_ARRAY: u32 = 35;
/// `main` has another form, or is no function.
pub const BAD_MAIN: u32 = 36;
/// Two declarations of a function disagree.
pub const DECLARATIONS_DISAGREE: u32 = 37;
/// An array is handed to an external function.
pub const ARRAY_HANDED_OUT: u32 = 38;
/// A function is too tangled: its flat form may become too large.
pub const TOO_TANGLED: u32 = 39;
/// A call of `printf` doesn't fit its text.
pub const BAD_PRINTF: u32 = 40;
/// The program has no `main` with a body.
pub const NO_MAIN: u32 = 41;
/// A run may call a function without a body.
pub const NO_BODY: u32 = 42;
/// A function with a body has a parameter without a name.
pub const NAMELESS_PARAMETER: u32 = 43;
/// A line of a report is bad.
pub const BAD_REPORT_LINE: u32 = 50;
/// A move of a report isn't lawful where it is made.
pub const UNFIT_MOVE: u32 = 51;
/// A jump is left behind the last move.
pub const JUMP_LEFT: u32 = 52;
/// The result is beyond the limits of a text.
pub const RESULT_TOO_DEEP: u32 = 53;
/// A jump stands where none may be.
pub const JUMP_PRESENT: u32 = 60;
