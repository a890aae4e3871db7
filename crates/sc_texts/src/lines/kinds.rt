//! The kinds of lines.
ghost use Rattle.std.specs.Prelude.{◌≡◌, map};
ghost use Rattle.sc_texts.specs.lines.Kinds.{part_kind, request_kind, line_kind, named_order, order_kind, first_kind, kind_of, phase_of, is_inner, request_count, line_count, has_order_count, has_count};

use crate::lines::words::{is_text, nth};

/// The kind of a line, which its first word gives.
#[derive(Clone, Copy)]
pub enum Kind {
    Header,
    Nodes,
    Group,
    Policy,
    Client,
    End,
    /// A request of a client, inside its section.
    Asking(RequestKind),
    /// A line of the schedule that is no order.
    Playing(LineKind),
    /// An order, which is a line of the schedule.
    GivingOrder(OrderKind),
}

/// The kind of a request of a client.
#[derive(Clone, Copy)]
pub enum RequestKind {
    Get,
    Put,
    Del,
    Add,
    Cas,
}

/// The kind of a line of the schedule that is no order.
#[derive(Clone, Copy)]
pub enum LineKind {
    Go,
    Deliver,
    Drop,
    Again,
    Tick,
    Crash,
    Settle,
    Free,
    Storm,
}

/// The kind of an order, which its third word gives. `Short` is an order without a third word.
#[derive(Clone, Copy)]
pub enum OrderKind {
    Join,
    Leave,
    Split,
    Merge,
    Repart,
    Migrate,
    Short,
}

fn part_kind(word: &[u8]) -> Option<Kind>
    ensures { result ≡ part_kind word.now }
{
    if is_text(word, b"scatter") {
        Some(Kind::Header)
    } else if is_text(word, b"nodes") {
        Some(Kind::Nodes)
    } else if is_text(word, b"group") {
        Some(Kind::Group)
    } else if is_text(word, b"policy") {
        Some(Kind::Policy)
    } else if is_text(word, b"client") {
        Some(Kind::Client)
    } else if is_text(word, b"end") {
        Some(Kind::End)
    } else {
        None
    }
}

fn request_kind(version: u8, word: &[u8]) -> Option<RequestKind>
    ensures { result ≡ request_kind version word.now }
{
    if is_text(word, b"get") {
        Some(RequestKind::Get)
    } else if is_text(word, b"put") {
        Some(RequestKind::Put)
    } else if is_text(word, b"del") {
        Some(RequestKind::Del)
    } else if version == 2 && is_text(word, b"add") {
        Some(RequestKind::Add)
    } else if version == 2 && is_text(word, b"cas") {
        Some(RequestKind::Cas)
    } else {
        None
    }
}

fn line_kind(word: &[u8]) -> Option<LineKind>
    ensures { result ≡ line_kind word.now }
{
    if is_text(word, b"go") {
        Some(LineKind::Go)
    } else if is_text(word, b"deliver") {
        Some(LineKind::Deliver)
    } else if is_text(word, b"drop") {
        Some(LineKind::Drop)
    } else if is_text(word, b"again") {
        Some(LineKind::Again)
    } else if is_text(word, b"tick") {
        Some(LineKind::Tick)
    } else if is_text(word, b"crash") {
        Some(LineKind::Crash)
    } else if is_text(word, b"settle") {
        Some(LineKind::Settle)
    } else if is_text(word, b"free") {
        Some(LineKind::Free)
    } else if is_text(word, b"storm") {
        Some(LineKind::Storm)
    } else {
        None
    }
}

fn named_order(word: &[u8]) -> Option<OrderKind>
    ensures { result ≡ named_order word.now }
{
    if is_text(word, b"join") {
        Some(OrderKind::Join)
    } else if is_text(word, b"leave") {
        Some(OrderKind::Leave)
    } else if is_text(word, b"split") {
        Some(OrderKind::Split)
    } else if is_text(word, b"merge") {
        Some(OrderKind::Merge)
    } else if is_text(word, b"repart") {
        Some(OrderKind::Repart)
    } else if is_text(word, b"migrate") {
        Some(OrderKind::Migrate)
    } else {
        None
    }
}

fn order_kind(words: &[&[u8]]) -> Option<OrderKind>
    ensures { result ≡ order_kind (map (λ word. word.now) words.now) }
{
    if words.len() < 3 {
        Some(OrderKind::Short)
    } else {
        named_order(nth(words, 2))
    }
}

fn first_kind(version: u8, word: &[u8]) -> Option<Kind>
    ensures { result ≡ first_kind version word.now }
{
    if let Some(kind) = part_kind(word) {
        return Some(kind);
    }
    if let Some(kind) = request_kind(version, word) {
        return Some(Kind::Asking(kind));
    }
    match line_kind(word) {
        Some(kind) => Some(Kind::Playing(kind)),
        None => None,
    }
}

/// Returns the kind of a line with these words, in a scenario of this version, or `None` where the
/// words give no kind.
pub fn kind_of(version: u8, words: &[&[u8]]) -> Option<Kind>
    ensures { result ≡ kind_of version (map (λ word. word.now) words.now) }
{
    if is_text(nth(words, 0), b"order") {
        return match order_kind(words) {
            Some(kind) => Some(Kind::GivingOrder(kind)),
            None => None,
        };
    }
    first_kind(version, nth(words, 0))
}

/// Returns the phase of a line of this kind, 0 to 5. Lines of a scenario are in the order of their
/// phases.
pub fn phase_of(kind: Kind) -> u8
    ensures { result ≡ phase_of kind }
{
    match kind {
        Kind::Header => 0,
        Kind::Nodes => 1,
        Kind::Group => 2,
        Kind::Policy => 3,
        Kind::Client | Kind::End | Kind::Asking(_) => 4,
        Kind::Playing(_) | Kind::GivingOrder(_) => 5,
    }
}

/// Returns whether a line of this kind is inside a client's section, and nowhere else.
pub fn is_inner(kind: Kind) -> bool
    ensures { result ≡ is_inner kind }
{
    match kind {
        Kind::End | Kind::Asking(_) => true,
        Kind::Header | Kind::Nodes | Kind::Group | Kind::Policy | Kind::Client => false,
        Kind::Playing(_) | Kind::GivingOrder(_) => false,
    }
}

fn request_count(kind: RequestKind) -> usize
    ensures { result ≡ request_count kind }
{
    match kind {
        RequestKind::Get | RequestKind::Del => 2,
        RequestKind::Put | RequestKind::Add => 3,
        RequestKind::Cas => 4,
    }
}

fn line_count(kind: LineKind) -> usize
    ensures { result ≡ line_count kind }
{
    match kind {
        LineKind::Go | LineKind::Again | LineKind::Tick | LineKind::Crash | LineKind::Settle => 2,
        LineKind::Deliver | LineKind::Drop | LineKind::Free | LineKind::Storm => 3,
    }
}

fn has_order_count(kind: OrderKind, count: usize) -> bool
    ensures { result ≡ has_order_count kind count }
{
    match kind {
        OrderKind::Join | OrderKind::Leave | OrderKind::Split => count == 5,
        OrderKind::Repart | OrderKind::Migrate => count == 5,
        OrderKind::Merge => count == 4,
        OrderKind::Short => false,
    }
}

/// Returns whether a line of this kind may have `count` words.
pub fn has_count(kind: Kind, count: usize) -> bool
    ensures { result ≡ has_count kind count }
{
    match kind {
        Kind::Header | Kind::Nodes | Kind::Client => count == 2,
        Kind::Group => 3 <= count,
        Kind::Policy | Kind::End => count == 1,
        Kind::Asking(kind) => count == request_count(kind),
        Kind::Playing(kind) => count == line_count(kind),
        Kind::GivingOrder(kind) => has_order_count(kind, count),
    }
}
