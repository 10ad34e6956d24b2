// Builds four networks, each with its edges keyed in every order. The line of an order has each edge as it is keyed, by its nodes, and its column; of
// each mass row the link and the elements by column; and the counts of columns and mass rows. Behind these lines stands how many orders gave the same
// counts; a refused build would count as no column. scripts/lines.py writes what must come out.
#![tactic(auto)]

ghost use Rattle.std.specs.Prelude.{◌<◌, ◌≤◌, length};

use layout::{
    BY_MASS, EDGE_COLUMN_COUNT_AT, EDGE_WIDTH, EDGES_AT, ELEMENT_CEILING, FIXED_COUNT_AT,
    MAKER_INDEX, MAKER_WIDTH, MAKERS_AT, MAPPED_COLUMN, ROW_CEILING, VARYING_COUNT_AT,
};
use program_store::Runs;
use pywr::Sentinel;
use std::io;

const MOST_NODES: usize = 6;

const MOST_EDGES: usize = 5;

// The length of a node's record and of an edge's.
const NODE_LENGTH: usize = 20;

const EDGE_LENGTH: usize = 6;

const FILE_LENGTH: usize = NODE_LENGTH * MOST_NODES + EDGE_LENGTH * MOST_EDGES;

const INPUT: u8 = 0;

const OUTPUT: u8 = 1;

const LINK: u8 = 2;

// In how many orders so many edges can be keyed.
fn orders(count: usize) -> usize
    ensures { 0 < result }
{
    match count {
        0 | 1 => 1,
        2 => 2,
        3 => 6,
        4 => 24,
        _ => 120,
    }
}

// Which of the edges that are left comes next in order k.
fn next_edge(k: usize, left: usize) -> usize
    requires { 0 < left }
    ensures { result < left }
{
    k / orders(left - 1) % left
}

// Puts the edges into order k of all their orders, which stand as in a dictionary.
fn put_in_order(edges: &mut [u8], k: usize) {
    for i in 0..edges.len() {
        let next = i + next_edge(k, edges.len() - i);
        edges[i..next + 1].rotate_right(1);
    }
}

// Every node varies, so the rest of its record is zero.
fn put_nodes(file: &mut [u8; FILE_LENGTH], kinds: &[u8])
    requires { length kinds.now ≤ 6 }
{
    for (n, kind) in kinds.iter().enumerate() {
        let at = NODE_LENGTH * n;
        file[at] = b'N';
        file[at + 1] = b'D';
        file[at + 2] = *kind;
    }
}

// An edge from node 1 to node 2 is 0x12.
fn put_edges(file: &mut [u8; FILE_LENGTH], start: usize, edges: &[u8])
    requires { (start ≤ 120) × (length edges.now ≤ 5) }
{
    for (e, edge) in edges.iter().enumerate() {
        let at = start + EDGE_LENGTH * e;
        file[at] = b'E';
        file[at + 1] = b'D';
        file[at + 2] = *edge / 16;
        file[at + 4] = *edge % 16;
    }
}

fn build(kinds: &[u8], edges: &[u8]) -> Runs
    requires { (length kinds.now ≤ 6) × (length edges.now ≤ 5) }
{
    let mut file = [0u8; FILE_LENGTH];
    let start = NODE_LENGTH * kinds.len();
    put_nodes(&mut file, kinds);
    put_edges(&mut file, start, edges);
    let mut store = Runs::zeros();
    let _ = store.build(
        &file[..start + EDGE_LENGTH * edges.len()],
        Sentinel::Infinity,
    );
    store
}

fn print_counts(rt: &impl Print, columns: usize, mass: usize) -> io::Result<()> {
    print!(rt; "columns {columns}, mass rows {mass}")
}

// The edges as they are keyed, each with its column.
fn print_edges(rt: &impl Print, store: &Runs, edges: &[u8]) -> io::Result<()>
    requires { length edges.now ≤ 5 }
{
    for (e, edge) in edges.iter().enumerate() {
        let from = *edge / 16;
        let to = *edge % 16;
        let column = store.shape[EDGES_AT + EDGE_WIDTH * e + MAPPED_COLUMN];
        print!(rt; "{from}-{to} in {column}; ")?;
    }
    Ok(())
}

fn print_element(rt: &impl Print, x: f64) -> io::Result<()> {
    if x == 1.0 {
        print!(rt; " 1")
    } else if x == -1.0 {
        print!(rt; " -1")
    } else if x == 0.0 {
        print!(rt; " 0")
    } else {
        print!(rt; " another")
    }
}

fn print_elements(rt: &impl Print, store: &Runs, row: usize) -> io::Result<()>
    requires { row < 1024 }
{
    let start = store.row_starts[row] as usize;
    let end = (store.row_starts[row + 1] as usize).min(ELEMENT_CEILING);
    for at in start..end {
        print_element(rt, store.elements[at])?;
    }
    Ok(())
}

// Writes a mass row; another is left out. Answers whether it is one.
fn mass_row(rt: &impl Print, store: &Runs, row: usize) -> io::Result<bool>
    requires { row < 1024 }
{
    let at = MAKERS_AT + MAKER_WIDTH * row;
    if store.shape[at] != BY_MASS {
        return Ok(false);
    }
    let link = store.shape[at + MAKER_INDEX];
    print!(rt; "link {link}:")?;
    print_elements(rt, store, row)?;
    print!(rt; "; ")?;
    Ok(true)
}

// Writes the mass rows. Answers how many there are.
fn mass_rows(rt: &impl Print, store: &Runs) -> io::Result<usize> {
    let made = usize::from(store.shape[VARYING_COUNT_AT])
        + usize::from(store.shape[FIXED_COUNT_AT]);
    let mut count: usize = 0;
    for row in 0..made.min(ROW_CEILING) {
        if mass_row(rt, store, row)? {
            count += 1;
        }
    }
    Ok(count)
}

// At 6 c + m stands how many orders gave c columns and m mass rows.
type Tally = [u16; 36];

fn count_order(tally: &mut Tally, columns: usize, mass: usize) {
    if columns < 6 && mass < 6 {
        let at = 6 * columns + mass;
        tally[at] = tally[at].wrapping_add(1);
    }
}

fn print_tally(rt: &impl Print, tally: &Tally) -> io::Result<()> {
    for (at, orders) in tally.iter().enumerate() {
        if 0 < *orders {
            print_counts(rt, at / 6, at % 6)?;
            println!(rt; ": orders {orders}")?;
        }
    }
    Ok(())
}

fn every_order(rt: &impl Print, kinds: &[u8], edges: &[u8]) -> io::Result<()>
    requires { (length kinds.now ≤ 6) × (length edges.now ≤ 5) }
{
    let mut tally = [0u16; 36];
    for k in 0..orders(edges.len()) {
        let mut most = [0u8; MOST_EDGES];
        let keyed = &mut most[..edges.len()];
        keyed.copy_from_slice(edges);
        put_in_order(keyed, k);
        let store = build(kinds, keyed);
        print_edges(rt, &store, keyed)?;
        let mass = mass_rows(rt, &store)?;
        let columns = usize::from(store.shape[EDGE_COLUMN_COUNT_AT]);
        print_counts(rt, columns, mass)?;
        println!(rt)?;
        count_order(&mut tally, columns, mass);
    }
    print_tally(rt, &tally)
}

fn chain(rt: &impl Print) -> io::Result<()> {
    println!(rt; "# a chain: input 0, links 1 to 3, output 4")?;
    every_order(
        rt,
        &[INPUT, LINK, LINK, LINK, OUTPUT],
        &[0x01, 0x12, 0x23, 0x34],
    )
}

fn ring_behind_an_input(rt: &impl Print) -> io::Result<()> {
    println!(rt; "# a ring behind an input: input 0, links 1 and 2")?;
    every_order(rt, &[INPUT, LINK, LINK], &[0x01, 0x12, 0x21])
}

fn closed_ring(rt: &impl Print) -> io::Result<()> {
    println!(rt; "# a closed ring: links 0 to 3")?;
    every_order(rt, &[LINK, LINK, LINK, LINK], &[0x01, 0x12, 0x23, 0x30])
}

fn meeting_chains(rt: &impl Print) -> io::Result<()> {
    println!(rt; "# two chains that meet: inputs 0 and 1, links 2 to 4, output 5")?;
    every_order(
        rt,
        &[INPUT, INPUT, LINK, LINK, LINK, OUTPUT],
        &[0x02, 0x24, 0x13, 0x34, 0x45],
    )
}

fn main(rt: HostRuntime) -> io::Result<()> {
    chain(&rt)?;
    ring_behind_an_input(&rt)?;
    closed_ring(&rt)?;
    meeting_chains(&rt)
}
