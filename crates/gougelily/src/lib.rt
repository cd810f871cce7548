// THE LIBRARY that programs in C and other languages link: the public entries as C functions on numbers and slices. include/gougelily.h
// declares them. None has a precondition on its numbers. Each answers 0 or more, or the refusal's number negated, and then every lent byte
// is as it was.
// Kept: what C lends one by one: counts beside their arrays, a number in an array of one place; and two views, two indices, each a name of C.
// Kept: a machine as a literal that names its four numbers. A function takes them by place, and each proof has to carry what is answered over
// to the record that it made (tried in `copying`).
#![tactic(auto)]

// What an entry hands out. On a refusal the function around it answers the refusal's number negated, as `?` would have it answer the refusal.
macro_rules! served {
    ($answer:expr) => {
        match $answer {
            Ok(value) => value,
            Err(refusal) => return layout::negated(refusal),
        }
    };
}

pub mod checks;
pub mod codes;
pub mod copying;
pub mod descriptions;
pub mod indices;
pub mod judging;
pub mod many;
pub mod marks;
pub mod plans;
pub mod sessions;
pub mod summaries;
pub mod texts;
pub mod versions;
pub mod visits;
pub mod walks;
pub mod windows;
