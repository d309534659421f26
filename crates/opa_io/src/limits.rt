//! All limits of the engine: each number is the greatest that is taken. What one more gives, docs/LIMITS.md tells.

/// Bytes of a rule file, of a table, or of a saved case.
pub const MOST_FILE: u64 = 8_388_608;

/// Bytes of the input of a run, an interview, a batch or a caseload.
pub const MOST_INPUT: usize = 67_108_864;

/// Bytes of a printed report that is verified.
pub const MOST_REPORT: u64 = 67_108_864;

/// Bytes of a line, its carriage return counted.
pub const MOST_LINE: usize = 65_536;

/// Bytes of a phrase or a title.
pub const MOST_PHRASE: usize = 1_000;

/// Bytes of a text: in a rule, in a command, in a saved case, or computed.
pub const MOST_TEXT: usize = 1_000;

/// Bytes of the name of an instance.
pub const MOST_INSTANCE_NAME: usize = 100;

/// Bytes of the name of a file in a rule file or a command.
pub const MOST_FILE_NAME: usize = 100;

/// Bytes of the name of a case in a caseload.
pub const MOST_CASE_NAME: usize = 100;

/// Levels of indentation.
pub const MOST_LEVEL: u32 = 64;

/// Brackets, calls and prefixes that are open at once on a line.
pub const MOST_NESTING: u32 = 64;

/// Depth of the tree of a rule.
pub const MOST_DEPTH: u32 = 64;

/// Nodes of the trees of all rules together.
pub const MOST_NODES: u32 = 200_000;

/// Attributes that are declared.
pub const MOST_ATTRIBUTES: u32 = 4_000;

/// Rules.
pub const MOST_RULES: u32 = 4_000;

/// Lines that name a file, `include` and `table` together.
pub const MOST_FILE_LINES: usize = 100;

/// Relations that are declared with `every`.
pub const MOST_EVERY: u32 = 16;

/// Live instances, the global one not counted.
pub const MOST_INSTANCES: u64 = 20_000;

/// Slots: each live instance with an attribute of its entity that has a rule.
pub const MOST_SLOTS: u64 = 2_000_000;

/// Answers that are held.
pub const MOST_ANSWERS: u64 = 100_000;

/// Change points of an answer, its first value counted.
pub const MOST_POINTS: usize = 1_000;

/// Days of a rolling window, and of a span of days.
pub const MOST_DAYS: u32 = 36_600;

/// People of a generated case.
pub const MOST_PEOPLE: u32 = 1_000;

/// Names of cases that are open at once in a caseload.
pub const MOST_CASES: usize = 100_000;

/// Suppositions of a case that stand on one another.
pub const MOST_SUPPOSITIONS: usize = 4;
