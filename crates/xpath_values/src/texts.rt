// The string functions of XPath 1.0, section 4.2, on borrowed texts.
ghost use Rattle.std.specs.Prelude.{◌≡◌, ◌==◌, nat_eq, ◌∷◌, ◌++◌, length, take, drop, position, slice_get, IfOk, OnOk, option_map, option_to_list, ◌+◌, pos, ◌+ℤ◌, ◌-ℤ◌};
ghost use Rattle.std.specs.List.{starts_with, concat};
ghost use Rattle.std.specs.Int.{int_max};
ghost use Rattle.std.specs.Str.{chars};
ghost use Rattle.xpath_values.specs.Texts.{first_cut, text_before, text_after, substring, normalized, translation, translated, counts, of_word};

use crate::draft::Draft;
use crate::number::Num;
use serna_kinds::{Chars, NoMemory, is_space};
use std::alloc::Global;

/// `concat`: the texts one after another.
pub(crate) fn concat(alloc: Global, texts: &[Chars]) -> Result<Chars, NoMemory>
    ensures { IfOk result (λ joined. joined ≡ concat texts.now) }
{
    let mut joined = Draft::new(alloc);
    for text in texts {
        joined.push_text(text.as_text())?;
    }
    joined.into_chars()
}

/// `starts-with`: whether the text begins with the prefix.
pub(crate) fn begins_with(text: &str, prefix: &str) -> bool
    ensures { result ≡ starts_with nat_eq (chars text.now) (chars prefix.now) }
{
    text.starts_with(prefix)
}

/// The text before and after the first place at which the other begins, if there is one.
pub(crate) fn cut_around<'a>(text: &'a str, other: &str) -> Option<(&'a str, &'a str)>
    ensures { option_map (λ cut. (chars cut.0.now, chars cut.1.now)) result ≡ first_cut (chars text.now) (chars other.now) }
{
    text.split_once(other)
}

/// `substring-before`: what stands before that place, and nothing where there is none.
pub(crate) fn before<'a>(text: &'a str, other: &str) -> &'a str
    ensures { chars result.now ≡ text_before (chars text.now) (chars other.now) }
{
    match cut_around(text, other) {
        Some((before, _)) => before,
        None => "",
    }
}

/// `substring-after`: what stands behind the other text at that place, and nothing where there is none.
pub(crate) fn after<'a>(text: &'a str, other: &str) -> &'a str
    ensures { chars result.now ≡ text_after (chars text.now) (chars other.now) }
{
    match cut_around(text, other) {
        Some((_, after)) => after,
        None => "",
    }
}

/// `substring`: the characters at the places from `start` on, which counts from 1, and as many as `count` tells
/// from that place on, where it is given. A NaN leaves none.
pub(crate) fn substring(text: &str, start: Num, count: Option<Num>) -> &str
    ensures { chars result.now ≡ substring (chars text.now) (start ∷ counts count) }
{
    let Num::Whole(start) = start else {
        return "";
    };
    let (_, rest) = split_behind(text, places_before(start));
    let Some(count) = count else {
        return rest;
    };
    match count {
        Num::NaN => "",
        Num::Whole(count) => split_behind(rest, places_between(start, count)).0,
    }
}

/// How many places, which count from 1, stand before the start.
fn places_before(start: i64) -> u64
    ensures { pos (result + 1) ≡ int_max start (pos 1) }
{
    (start.max(1) - 1) as u64
}

/// How many places stand from the start on and before the place that start and count add up to.
fn places_between(start: i64, count: i64) -> u64
    ensures { pos result ≡ int_max (start +ℤ count -ℤ int_max start (pos 1)) (pos 0) }
{
    let end = i128::from(start) + i128::from(count);
    (end - i128::from(start.max(1))).max(0) as u64
}

/// `string-length`: how many characters the text has.
pub(crate) fn character_count(text: &str) -> usize
    ensures { result ≡ length (chars text.now) }
{
    text.chars().count()
}

/// `normalize-space`: the words of the text, with one space between each two.
pub(crate) fn normalize_space(alloc: Global, text: &str) -> Result<Chars, NoMemory>
    ensures { IfOk result (λ normal. normal ≡ normalized (chars text.now)) }
{
    let mut normal = Draft::new(alloc);
    let mut is_between = true;
    for character in text.chars() {
        if is_space(character) {
            is_between = true;
        } else {
            push_of_word(&mut normal, is_between, character)?;
            is_between = false;
        }
    }
    normal.into_chars()
}

/// Writes a character of a word, behind a space where it begins a word that is not the first.
fn push_of_word(text: &mut Draft, begins: bool, character: char) -> Result<(), NoMemory>
    ensures { OnOk result (text.new ≡ text.old ++ of_word text.old begins character) }
{
    if begins && !text.is_empty() {
        text.push(' ')?;
    }
    text.push(character)
}

/// `translate`: each character of `from` becomes the one at its place in `to`, or nothing where `to` is shorter.
pub(crate) fn translate(alloc: Global, text: &str, from: &str, to: &str) -> Result<Chars, NoMemory>
    ensures { IfOk result (λ outcome. outcome ≡ translated (chars text.now) (chars from.now) (chars to.now)) }
{
    let mut outcome = Draft::new(alloc);
    for character in text.chars() {
        push_some(&mut outcome, translation(character, from, to))?;
    }
    outcome.into_chars()
}

/// Writes a character, if there is one.
fn push_some(text: &mut Draft, character: Option<char>) -> Result<(), NoMemory>
    ensures { OnOk result (text.new ≡ text.old ++ option_to_list character) }
{
    match character {
        Some(character) => text.push(character),
        None => Ok(()),
    }
}

/// What `translate` makes of a character.
fn translation(character: char, from: &str, to: &str) -> Option<char>
    ensures { result ≡ translation (chars from.now) (chars to.now) character }
{
    match place_of(from, character) {
        Some(place) => character_at(to, place),
        None => Some(character),
    }
}

/// The first place of a character in a text.
fn place_of(text: &str, character: char) -> Option<usize>
    ensures { result ≡ position (λ other. other == character) (chars text.now) }
{
    text.chars().position(|other| other == character)
}

/// The character at a place of a text, from 0.
fn character_at(text: &str, place: usize) -> Option<char>
    ensures { result ≡ slice_get (chars text.now) place }
{
    text.chars().nth(place)
}

/// The first `count` characters of a text, and the rest.
fn split_behind(text: &str, count: u64) -> (&str, &str)
    ensures front { chars result.0.now ≡ take count (chars text.now) }
    ensures rest { chars result.1.now ≡ drop count (chars text.now) }
{
    let mut rest = text.chars();
    for _ in 0..count {
        if rest.next().is_none() {
            return (text, "");
        }
    }
    text.split_at(text.len() - rest.as_str().len())
}
