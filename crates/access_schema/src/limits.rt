// The limits of a schema.

/// The most relations of a schema.
pub const MOST_RELATIONS: usize = 256;

/// The most access methods of a schema.
pub const MOST_METHODS: usize = 256;

/// The most rules of a schema, those from foreign keys among them.
pub const MOST_RULES: usize = 256;

/// The most columns of a relation, which has at least one.
pub const MOST_COLUMNS: usize = 64;

/// The most atoms of a rule's body, which has at least one.
pub const MOST_BODY_ATOMS: usize = 16;

/// The most atoms of a rule's head, which has at least one.
pub const MOST_HEAD_ATOMS: usize = 8;

/// The most variables of a rule.
pub const MOST_VARIABLES: usize = 128;

/// The highest cost of an access method.
pub const MOST_COST: u32 = 1_000_000;

/// The most constants of a schema, those of its rules among them.
pub const MOST_CONSTANTS: usize = 1024;
