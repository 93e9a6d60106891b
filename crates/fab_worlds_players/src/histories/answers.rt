//! What comes of the rows of a world.

use fab_store_load::{LoadFault, Table};
use fab_store_rows::TableRows;
use fab_store_world::world_of;
use fab_test_alloc::Refusing;
use fab_world::World;
use std::alloc::{Allocator, Global};

/// How often a question is asked at most, each time with another request for memory refused.
const MOST: u64 = 100_000;

/// What loading the rows answers.
#[derive(Clone, Copy, PartialEq, Eq)]
pub enum Answer {
    /// There is a world.
    Opens,
    /// The table of changes is damaged.
    Undo,
    /// Another table is.
    Other,
    /// There is no memory.
    Memory,
}

/// The word of an answer.
pub fn word_of(answer: Answer) -> &'static str {
    match answer {
        Answer::Opens => "opens",
        Answer::Undo => "undo",
        Answer::Other => "other",
        Answer::Memory => "memory",
    }
}

/// What loading the rows answers.
pub fn loading<A: Allocator + Copy>(alloc: A, tables: &TableRows<A>) -> Answer {
    match world_of(alloc, tables) {
        Ok(_) => Answer::Opens,
        Err(LoadFault::Damaged(Table::Undo)) => Answer::Undo,
        Err(LoadFault::Damaged(_)) => Answer::Other,
        Err(LoadFault::Memory) => Answer::Memory,
    }
}

/// What the world answers that is asked whether it is sound.
fn soundness<A: Allocator + Copy>(alloc: A, world: &World<A>) -> Answer {
    match world.is_sound(alloc) {
        Ok(true) => Answer::Opens,
        Ok(false) => Answer::Undo,
        Err(_) => Answer::Memory,
    }
}

/// What is asked.
#[derive(Clone, Copy)]
enum Question<'a, A: Allocator + Copy> {
    /// Whether the rows are a world's.
    Rows(&'a TableRows<A>),
    /// Whether the world is sound.
    World(&'a World<A>),
}

/// What the question is answered.
fn asked<A: Allocator + Copy>(alloc: A, question: &Question<'_, A>) -> Answer {
    match question {
        Question::Rows(tables) => loading(alloc, tables),
        Question::World(world) => soundness(alloc, world),
    }
}

/// The first answer to the question that is not as it has to be, each request for memory refused in turn:
/// this answer, or, where one was refused, want of memory. None where all are.
fn first_odd<'a>(
    heap: &'a Refusing<Global>,
    question: &Question<'_, &'a Refusing<Global>>,
    wanted: Answer,
) -> Option<Answer> {
    for requests in 0..MOST {
        heap.refuse_after(requests);
        let found = asked(heap, question);
        let is_refused = heap.has_refused();
        heap.refuse_none();
        if found != wanted && !(is_refused && found == Answer::Memory) {
            return Some(found);
        }
        if !is_refused {
            return None;
        }
    }
    Some(Answer::Memory)
}

/// The first odd answer of a world of the rows that is asked whether it is sound.
fn first_odd_of_world<'a>(
    heap: &'a Refusing<Global>,
    tables: &TableRows<&'a Refusing<Global>>,
) -> Option<Answer> {
    match world_of(heap, tables) {
        Ok(world) => first_odd(heap, &Question::World(&world), Answer::Opens),
        Err(_) => Some(Answer::Other),
    }
}

/// The first odd answer where the rows are loaded, and where a world of them is asked whether it is sound.
pub fn first_scarce<'a>(
    heap: &'a Refusing<Global>,
    tables: &TableRows<&'a Refusing<Global>>,
    wanted: Answer,
) -> Option<Answer> {
    let found = first_odd(heap, &Question::Rows(tables), wanted);
    if found.is_some() || wanted != Answer::Opens {
        return found;
    }
    first_odd_of_world(heap, tables)
}
