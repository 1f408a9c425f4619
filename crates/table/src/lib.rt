// The account table: a lent slice of 2,568 signed numbers, its limits and places, and open.
#![tactic(auto)]

ghost use Rattle.std.specs.Prelude.{◌≡◌, ◌+◌, ◌*◌, ◌<◌, ◌≤◌, ◌^◌, pos};
ghost use Rattle.numbers.specs.Whole.{plus, minus, same_ℤ};
ghost use Rattle.definitions.specs.Limits.{header_length, record_length, nodes, depth_at, share_limit, port_limit, greatest_depth, grain_scale};
ghost use Rattle.definitions.specs.Places.{place, put, header, put_header, count, depth_grains};
ghost use Rattle.definitions.specs.Calls.{blank, opened, open_limits, open_table, open_answer};
ghost use Rattle.answers.specs.Answers.{told};

use answers::Refusal;

pub mod queue;
pub mod tree;

// How many there are at the first port and at the second.
#[derive(Clone, Copy)]
pub struct PortCounts {
    pub first: usize,
    pub second: usize,
}

// The numbers of an account table that has the right length.
// Kept: the C interface needs it: document 01 says where each number of a lent table stands, and parents are numbers.
// Kept: the new form is no plainer: a type for node numbers would be opened at each index, and made again of each parent that is read.
pub type AccountTable = [i64; Table::LENGTH];

#[derive(Clone, Copy)]
pub struct Table {}

impl Table {
    pub const HEADER: usize = 8;

    pub const RECORD: usize = 40;

    pub const NODES: usize = 64;

    pub const LENGTH: usize = Table::HEADER + Table::NODES * Table::RECORD;

    pub const LAST_NODE: u64 = 63;

    pub const LAST_CLASS_LEVEL: u64 = 3;

    pub const LAST_LEVEL: u64 = 4;

    pub const GRAIN_SCALE: u64 = 1000;

    pub const WHOLE_SHARE: u64 = 10000;

    pub const GREATEST_DEPTH: u64 = 1000000;

    pub const GREATEST_RATE: u64 = 1000000000;

    pub const GREATEST_COUNT: u64 = 9000000000000000000;

    pub const MOST_WAITING: u64 = 8;

    // Places of a record.
    pub const SORT: usize = 0;

    pub const PARENT: usize = 1;

    pub const LEVEL: usize = 2;

    pub const KIND: usize = 3;

    pub const SHARE: usize = 4;

    pub const DEPTH: usize = 5;

    pub const RATE: usize = 6;

    pub const BALANCE: usize = 7;

    pub const WAITING: usize = 8;

    pub const PORT: usize = 9;

    pub const SPARE: usize = 10;

    pub const SPARE_LENGTH: usize = 6;

    pub const QUEUE: usize = 16;

    pub const REQUEST: usize = 3;

    pub const QUEUE_LENGTH: usize = Table::MOST_WAITING as usize * Table::REQUEST;

    pub const TAG: usize = 0;

    pub const SIZE: usize = 1;

    pub const ARRIVAL: usize = 2;

    // Numbers of one entry of a dispatch list.
    pub const ENTRY: usize = 4;

    // Numbers that look shows.
    pub const SEEN: usize = 4;

    // Sorts and kinds.
    // Kept: the new form is no plainer: a lent table holds sorts, kinds and ports as numbers, and the definitions speak of these.
    pub const UNUSED: u64 = 0;

    pub const CLASS: u64 = 1;

    pub const CLIENT: u64 = 2;

    pub const FIXED: u64 = 0;

    pub const WEIGHTED: u64 = 1;

    pub const STATED: u64 = 2;

    // How many kinds there are, and how many sums: of each kind one under each class.
    pub const KINDS: usize = 3;

    pub const SHARE_SUMS: usize = Table::KINDS * Table::NODES;

    // Ports, and how many there are.
    pub const FIRST_PORT: u64 = 0;

    pub const SECOND_PORT: u64 = 1;

    pub const PORTS: usize = 2;

    // The greatest share of a kind.
    #[tactic(auto, unfolding(definitions::specs::Limits::share_limit))]
    pub fn share_limit(kind: u64) -> u64
        ensures { result ≡ share_limit kind }
    {
        if kind == Table::STATED {
            return Table::GREATEST_RATE;
        }
        Table::WHOLE_SHARE
    }

    // The greatest port of a sort: of a class it is zero.
    #[tactic(auto, unfolding(definitions::specs::Limits::port_limit))]
    pub fn port_limit(sort: u64) -> u64
        ensures { result ≡ port_limit sort }
    {
        if sort == Table::CLIENT {
            return Table::SECOND_PORT;
        }
        0
    }

    // What stands at place p of node k.
    #[tactic(auto, unfolding(definitions::specs::Places::place))]
    pub fn get(table: &AccountTable, k: usize, p: usize) -> i64
        requires { (k < nodes) × (p < record_length) }
        ensures { result ≡ place table.now k p }
    {
        table[Table::HEADER + Table::RECORD * k + p]
    }

    // The natural part of it.
    pub fn natural(table: &AccountTable, k: usize, p: usize) -> u64
        requires { (k < nodes) × (p < record_length) }
        ensures { result ≡ plus (place table.now k p) }
    {
        numbers::natural(Table::get(table, k, p))
    }

    // It as a natural number, where it is not negative.
    // Kept: the new form is no plainer: it asks more than `natural` and tests nothing.
    pub fn unsigned(table: &AccountTable, k: usize, p: usize) -> u64
        requires { (k < nodes) × (p < record_length) × (minus (place table.now k p) ≡ 0) }
        ensures { result ≡ plus (place table.now k p) }
    {
        numbers::unsigned(Table::get(table, k, p))
    }

    // Whether it is the same in two tables.
    pub fn same_place(first: &AccountTable, second: &AccountTable, k: usize, p: usize) -> bool
        requires { (k < nodes) × (p < record_length) }
        ensures { result ≡ same_ℤ (place first.now k p) (place second.now k p) }
    {
        numbers::equal(Table::get(first, k, p), Table::get(second, k, p))
    }

    // Writes v there.
    #[tactic(auto, unfolding(definitions::specs::Places::put))]
    pub fn put(table: &mut AccountTable, k: usize, p: usize, v: i64)
        requires { (k < nodes) × (p < record_length) }
        ensures { table.new ≡ put table.old k p v }
    {
        table[Table::HEADER + Table::RECORD * k + p] = v;
    }

    // Writes a natural number there.
    pub fn put_natural(table: &mut AccountTable, k: usize, p: usize, v: u64)
        requires { (k < nodes) × (p < record_length) × (v < 2 ^ 63) }
        ensures { table.new ≡ put table.old k p (pos v) }
    {
        Table::put(table, k, p, numbers::whole(v));
    }

    // What stands at place p of the header.
    #[tactic(auto, unfolding(definitions::specs::Places::header))]
    pub fn heading(table: &AccountTable, p: usize) -> i64
        requires { p < header_length }
        ensures { result ≡ header table.now p }
    {
        table[p]
    }

    // The count of accepted requests.
    #[tactic(auto, unfolding(definitions::specs::Places::count))]
    pub fn count(table: &AccountTable) -> u64
        ensures { result ≡ count table.now }
    {
        numbers::natural(Table::heading(table, 0))
    }

    // Writes the count of accepted requests.
    #[tactic(auto, unfolding(definitions::specs::Places::put_header))]
    pub fn put_count(table: &mut AccountTable, n: u64)
        requires { n < 2 ^ 63 }
        ensures { table.new ≡ put_header table.old 0 (pos n) }
    {
        let count = numbers::whole(n);
        table[0] = count;
    }

    // Tokens in grains.
    pub fn grains(tokens: u64) -> u64
        requires { tokens * grain_scale < 2 ^ 64 }
        ensures { result ≡ tokens * grain_scale }
    {
        tokens * Table::GRAIN_SCALE
    }

    // The depth of node k in grains.
    #[tactic(auto, unfolding(definitions::specs::Places::depth_grains))]
    pub fn depth_grains(table: &AccountTable, k: usize) -> u64
        requires { (k < nodes) × (plus (place table.now k depth_at) ≤ greatest_depth) }
        ensures { result ≡ depth_grains table.now k }
    {
        Table::grains(Table::natural(table, k, Table::DEPTH))
    }

    // Writes 0 everywhere.
    #[tactic(auto, unfolding(definitions::specs::Calls::blank))]
    fn clear(table: &mut AccountTable)
        ensures { table.new ≡ blank }
    {
        *table = [0; Table::LENGTH];
    }

    // Makes the root in a table of zeros.
    #[tactic(auto, unfolding(definitions::specs::Calls::opened))]
    fn put_root(table: &mut AccountTable, rate: i64, depth: i64)
        requires { table.old ≡ blank }
        ensures { table.new ≡ opened rate depth }
    {
        Table::put_natural(table, 0, Table::SORT, Table::CLASS);
        Table::put_natural(table, 0, Table::SHARE, Table::WHOLE_SHARE);
        Table::put(table, 0, Table::DEPTH, depth);
        Table::put(table, 0, Table::RATE, rate);
    }

    // Whether open's arguments are in their limits.
    fn open_limits(rate: i64, depth: i64) -> bool
        ensures { result ≡ open_limits rate depth }
    {
        let rate_fits = numbers::within(rate, 1, Table::GREATEST_RATE);
        let depth_fits = numbers::within(depth, 1, Table::GREATEST_DEPTH);
        rate_fits & depth_fits
    }

    // Zeroes the table and makes the root with balance 0. Document 01, "Calls".
    pub fn open(table: &mut [i64], rate: i64, depth: i64) -> Result<i64, Refusal>
        ensures answer { told result ≡ open_answer table.old rate depth }
        ensures table { table.new ≡ open_table table.old rate depth }
    {
        let Some(numbers) = table.as_mut_array() else {
            return Err(Refusal::NotInOrder);
        };
        if !Table::open_limits(rate, depth) {
            return Err(Refusal::OutsideLimits);
        }
        Table::clear(numbers);
        Table::put_root(numbers, rate, depth);
        Ok(0)
    }
}
