// What the hashes of FIPS 180-4 over words of 32 bits share: functions of words, and the bytes that are kept between a message's parts.
#![tactic(auto)]

pub mod message;
pub mod word;
