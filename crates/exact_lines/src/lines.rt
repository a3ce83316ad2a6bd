// The lines of the answers. A failed write is silent.

use questions::Refusal;

// The call, what it is asked about, and the number and place of its answer: 0 0 if it is accepted.
pub fn put<T: Copy>(rt: &impl Print, call: &str, asked: &str, answer: Result<T, Refusal>) {
    let number = questions::number_of(answer);
    let place = questions::place_of(answer);
    let _ = println!(rt; "{call}{asked}{number} {place}");
}

// The call, and how many circular tangents it computed on an edge without direction.
pub fn put_count(rt: &impl Print, call: &str, asked: &str, making: Result<usize, Refusal>) {
    let count = create_shared::directionless_of(making);
    let _ = println!(rt; "{call}{asked}{count} without direction");
}
