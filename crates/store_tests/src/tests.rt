//! What a store answers, and what it leaves on a disk, by hand.
//!
//! Most tests are rows of text (`script.rt`): what is done, and the answer to each step.
mod answers;
mod blocks;
mod cache;
mod copies;
mod counts;
mod crashes;
mod differences;
mod failures;
mod formats;
mod growth;
mod lengths;
mod library;
mod longer;
mod merges;
mod new_at;
mod openings;
mod over;
mod posts;
mod records;
mod rollback;
mod runs;
mod script;
mod series;
mod settlements;
mod space;
mod tallies;
mod versions;
mod words;
