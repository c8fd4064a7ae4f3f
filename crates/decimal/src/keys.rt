// The fixed bytes: the input's keys, matched on reading, and the listing's keys and answers. BOOLS and INTS are both.
pub const BOOLS: &[u8] = b"bools=";

pub const INTS: &[u8] = b"ints=";

pub const INT: &[u8] = b"int=";

pub const STATEMENTS: &[u8] = b"statements=";

pub const STATEMENT: &[u8] = b"statement=";

pub const FIXED: &[u8] = b"fixed=";

pub const EMITTED: &[u8] = b"emitted=";

pub const DOMAIN: &[u8] = b"domain=";

pub const CLAUSE: &[u8] = b"clause=";

pub const CLAUSES: &[u8] = b"clauses=";

pub const TOTAL: &[u8] = b"total=";

pub const COMPILED: &[u8] = b"answer=compiled\n";

pub const CONTRADICTION: &[u8] = b"answer=contradiction\n";

pub const REFUSED: &[u8] = b"answer=refused,";

pub const UNREAD: &[u8] = b"answer=unread\n";
