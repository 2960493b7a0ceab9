// The table of commands: which fields each of them reads. The others are ignored.
ghost use Rattle.std.specs.Prelude.{◌≡◌, map, ◌<◌};
ghost use Rattle.rules.specs.Limits.{command_count};
ghost use Rattle.rules.specs.Script.{rows, row_of};
ghost use Rattle.fields.specs.Fields.{row_held, row_used};

use rules::limits::COMMANDS;

// Whether a command reads its target as a variable's index, its target as a mark, its expression, its target as a reader set, the sets of bytes 5 and 6.
#[derive(Clone, Copy, PartialEq, Eq, Debug)]
pub struct Row {
    pub target: bool,
    pub mark: bool,
    pub expression: bool,
    pub readers: bool,
    pub fifth: bool,
    pub sixth: bool,
}

const NOTHING: Row = Row {
    target: false,
    mark: false,
    expression: false,
    readers: false,
    fifth: false,
    sixth: false,
};

const EXPRESSION: Row = Row {
    expression: true,
    ..NOTHING
};

const ASSIGNMENT: Row = Row {
    target: true,
    ..EXPRESSION
};

const LINE: Row = Row {
    readers: true,
    ..EXPRESSION
};

const MARKED: Row = Row {
    mark: true,
    ..EXPRESSION
};

const INSERTION: Row = Row {
    fifth: true,
    sixth: true,
    ..MARKED
};

const COVER: Row = Row {
    fifth: true,
    ..NOTHING
};

const ROWS: [Row; COMMANDS] = [
    NOTHING, // 0
    ASSIGNMENT, // 1
    EXPRESSION, // 2 if
    NOTHING, // 3 else
    EXPRESSION, // 4 while
    NOTHING, // 5 end
    LINE, // 6
    NOTHING, // 7 root
    NOTHING, // 8 up
    NOTHING, // 9 first child
    NOTHING, // 10 right sibling
    INSERTION, // 11 new first child
    INSERTION, // 12 new right sibling
    NOTHING, // 13 remove first child
    NOTHING, // 14 remove right sibling
    EXPRESSION, // 15
    COVER, // 16 cover
    EXPRESSION, // 17 if that comes back
    NOTHING, // 18 left sibling
    NOTHING, // 19 last child
];

// The same where records hold no sets, by number: a table too, since one that is made from the other costs at each use.
const SETLESS: [Row; COMMANDS] = [
    NOTHING, // 0
    ASSIGNMENT, // 1
    EXPRESSION, // 2
    NOTHING, // 3
    EXPRESSION, // 4
    NOTHING, // 5
    EXPRESSION, // 6
    NOTHING, // 7
    NOTHING, // 8
    NOTHING, // 9
    NOTHING, // 10
    MARKED, // 11
    MARKED, // 12
    NOTHING, // 13
    NOTHING, // 14
    EXPRESSION, // 15
    NOTHING, // 16
    EXPRESSION, // 17
    NOTHING, // 18
    NOTHING, // 19
];

// What is used of each row, where records hold sets or do not.
pub fn used(sets: bool) -> [Row; COMMANDS]
    ensures { result ≡ map (row_used sets) rows }
{
    if sets { ROWS } else { SETLESS }
}

// The whole table, for a scan: a constant is built anew at each use.
pub(crate) fn table() -> [Row; COMMANDS]
    ensures { result ≡ map row_held rows }
{
    ROWS
}

// The row of one command.
pub fn row_of(command: usize) -> Row
    requires { command < command_count }
    ensures { result ≡ row_held (row_of command) }
{
    ROWS[command]
}
