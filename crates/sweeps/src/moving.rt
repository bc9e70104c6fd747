//! The moves of a queue pair, from each state to each other.

use crate::making::{Terms, Which, go, told, unused};
use crate::words::connection;
use std::alloc::{AllocError, Global};
use uv_num::{Errno, QP_ATTRS, QpAttr, QpAttrs, QpState, Service};
use uv_qp::Qp;

/// The name of an attribute.
fn name_of(attr: QpAttr) -> &'static str {
    match attr {
        QpAttr::Access => "access",
        QpAttr::Pkey => "pkey",
        QpAttr::Port => "port",
        QpAttr::Qkey => "qkey",
        QpAttr::Dev => "dev",
        QpAttr::Mtu => "mtu",
        QpAttr::Timeout => "timeout",
        QpAttr::Retry => "retry",
        QpAttr::Rnr => "rnr",
        QpAttr::Rqpsn => "rqpsn",
        QpAttr::Mra => "mra",
        QpAttr::RnrTimer => "rnrtimer",
        QpAttr::Sqpsn => "sqpsn",
        QpAttr::Mdra => "mdra",
        QpAttr::Dqpn => "dqpn",
    }
}

/// A value of an attribute that is in its range.
fn value_of(attr: QpAttr) -> u64 {
    match attr {
        QpAttr::Access => 6,
        QpAttr::Pkey => 0,
        QpAttr::Port => 1,
        QpAttr::Qkey => 17,
        QpAttr::Dev => 1,
        QpAttr::Mtu => 2048,
        QpAttr::Timeout => 14,
        QpAttr::Retry => 5,
        QpAttr::Rnr => 6,
        QpAttr::Rqpsn => 16_777_215,
        QpAttr::Mra => 1,
        QpAttr::RnrTimer => 12,
        QpAttr::Sqpsn => 16_777_214,
        QpAttr::Mdra => 16,
        QpAttr::Dqpn => 17,
    }
}

/// The attributes of names that are joined by commas.
fn attrs_of(names: &str) -> QpAttrs {
    let mut attrs = QpAttrs::none();
    for name in names.split(',') {
        for attr in QP_ATTRS {
            if name == name_of(attr) {
                attrs = attrs.with(attr, value_of(attr));
            }
        }
    }
    attrs
}

/// The same attributes without one.
fn without(attrs: QpAttrs, left: QpAttr) -> QpAttrs {
    let mut rest = QpAttrs::none();
    for attr in QP_ATTRS {
        if let Some(value) = attrs.get(attr) {
            if attr != left {
                rest = rest.with(attr, value);
            }
        }
    }
    rest
}

fn state_of(word: &str) -> Option<QpState> {
    match word {
        "reset" => Some(QpState::Reset),
        "init" => Some(QpState::Init),
        "rtr" => Some(QpState::Rtr),
        "rts" => Some(QpState::Rts),
        "err" => Some(QpState::Err),
        _ => None,
    }
}

fn path_to(state: QpState) -> &'static [QpState] {
    match state {
        QpState::Reset => &[],
        QpState::Init => &[QpState::Init],
        QpState::Rtr => &[QpState::Init, QpState::Rtr],
        QpState::Rts => &[QpState::Init, QpState::Rtr, QpState::Rts],
        QpState::Err => &[QpState::Init, QpState::Err],
    }
}

/// A move that is tried.
#[derive(Clone, Copy, Debug, PartialEq)]
struct Move {
    service: Service,
    from: QpState,
    to: QpState,
}

/// What came of a move.
#[derive(Clone, Copy, Debug, PartialEq)]
enum Came {
    /// It was made, and what was given is kept.
    Made,
    /// EINVAL, and nothing has changed.
    Refused,
    /// Anything else.
    Odd,
}

/// A queue pair in a state.
fn in_state(alloc: Global, tried: Move) -> Result<Qp, AllocError> {
    let terms = Terms {
        service: tried.service,
        ..connection(1024, 7)
    };
    let mut qp = unused(alloc, tried.service, Which::A, 0)?;
    for to in path_to(tried.from) {
        let _ = go(&mut qp, *to, told(terms, Which::A, *to));
    }
    Ok(qp)
}

/// Whether each attribute that was given is kept; after a move to RESET none is.
fn keeps_all(qp: &Qp, attrs: QpAttrs) -> bool {
    let kept = qp.attrs();
    if qp.state() == QpState::Reset {
        return kept == QpAttrs::none();
    }
    QP_ATTRS.iter().all(|attr| attrs.get(*attr).is_none() || attrs.get(*attr) == kept.get(*attr))
}

/// Tries a move by these attributes on a queue pair of its own.
fn attempt(alloc: Global, tried: Move, attrs: QpAttrs) -> Result<Came, AllocError> {
    let mut qp = in_state(alloc, tried)?;
    let (state, kept) = (qp.state(), qp.attrs());
    if state != tried.from {
        return Ok(Came::Odd);
    }
    match go(&mut qp, tried.to, attrs) {
        Ok(()) => if qp.state() == tried.to && keeps_all(&qp, attrs) {
            Ok(Came::Made)
        } else {
            Ok(Came::Odd)
        },
        Err(Errno::Inval) => if qp.state() == state && qp.attrs() == kept {
            Ok(Came::Refused)
        } else {
            Ok(Came::Odd)
        },
        Err(_) => Ok(Came::Odd),
    }
}

/// Puts a name after those of a list that is joined by commas.
fn put_name(list: &mut String, name: &str) -> Result<(), AllocError> {
    if !list.is_empty() {
        list.push_str(",")?;
    }
    list.push_str(name)
}

/// What the row of a move wants: the attributes without which it is refused, and those that it takes or not.
#[derive(Drop)]
struct Row {
    required: String,
    optional: String,
    odd: String,
}

/// Finds out what the row of a move says of an attribute, where the move is made by `base`.
fn put_attr(
    alloc: Global,
    tried: Move,
    base: QpAttrs,
    attr: QpAttr,
    row: &mut Row,
) -> Result<(), AllocError> {
    let with = attempt(alloc, tried, base.with(attr, value_of(attr)))?;
    let without = attempt(alloc, tried, without(base, attr))?;
    match (with, without) {
        (Came::Made, Came::Refused) => put_name(&mut row.required, name_of(attr)),
        (Came::Made, Came::Made) => put_name(&mut row.optional, name_of(attr)),
        (Came::Refused, Came::Made) => Ok(()),
        _ => put_name(&mut row.odd, name_of(attr)),
    }
}

/// What the row of a move wants, where it is made by `base`.
fn row_of(alloc: Global, tried: Move, base: QpAttrs) -> Result<Row, AllocError> {
    let mut row = Row {
        required: String::new(alloc),
        optional: String::new(alloc),
        odd: String::new(alloc),
    };
    for attr in QP_ATTRS {
        put_attr(alloc, tried, base, attr, &mut row)?;
    }
    Ok(row)
}

/// Whether a move is refused by each attribute alone.
fn refuses_each(alloc: Global, tried: Move) -> Result<bool, AllocError> {
    for attr in QP_ATTRS {
        let one = QpAttrs::none().with(attr, value_of(attr));
        if attempt(alloc, tried, one)? != Came::Refused {
            return Ok(false);
        }
    }
    Ok(true)
}

/// Whether a move is refused by what each move on the way to RTS wants.
fn refuses_told(alloc: Global, tried: Move) -> Result<bool, AllocError> {
    let terms = Terms {
        service: tried.service,
        ..connection(1024, 7)
    };
    for to in [QpState::Init, QpState::Rtr, QpState::Rts] {
        if attempt(alloc, tried, told(terms, Which::A, to))? != Came::Refused {
            return Ok(false);
        }
    }
    Ok(true)
}

/// Whether a move is refused whatever is given: nothing, one attribute, or what a row wants.
fn is_refused(alloc: Global, tried: Move) -> Result<bool, AllocError> {
    Ok(
        attempt(alloc, tried, QpAttrs::none())? == Came::Refused
            && refuses_each(alloc, tried)?
            && refuses_told(alloc, tried)?,
    )
}

fn or_none(list: &str) -> &str {
    if list.is_empty() { "none" } else { list }
}

/// The move `SERVICE FROM TO`.
fn move_of(service: &str, from: &str, to: &str) -> Option<Move> {
    let service = match service {
        "rc" => Service::Rc,
        "ud" => Service::Ud,
        _ => return None,
    };
    let (Some(from), Some(to)) = (state_of(from), state_of(to)) else {
        return None;
    };
    Some(Move { service, from, to })
}

/// What `SERVICE FROM TO NAMES` asks for: a move, and the attributes of these names.
fn asked(rest: &str) -> Option<(Move, QpAttrs)> {
    let mut words = rest.split(' ');
    let service = words.next()?;
    let from = words.next()?;
    let to = words.next()?;
    let tried = move_of(service, from, to)?;
    Some((tried, attrs_of(words.next()?)))
}

fn row_text(alloc: Global, row: &Row) -> Result<String, AllocError> {
    let (required, optional) = (
        or_none(row.required.as_str()),
        or_none(row.optional.as_str()),
    );
    if row.odd.is_empty() {
        return format!(in alloc; "required {required} optional {optional}");
    }
    let odd = row.odd.as_str();
    format!(in alloc; "required {required} optional {optional} odd {odd}")
}

/// `move SERVICE FROM TO NAMES`: whether the move is made by the attributes of these names, and which it wants and takes; or that
/// it is refused whatever is given.
pub fn moves(alloc: Global, rest: &str) -> Result<Option<String>, AllocError> {
    let Some((tried, base)) = asked(rest) else {
        return Ok(None);
    };
    if attempt(alloc, tried, base)? == Came::Made {
        let row = row_of(alloc, tried, base)?;
        return Ok(Some(row_text(alloc, &row)?));
    }
    let word = if is_refused(alloc, tried)? {
        "refused"
    } else {
        "not refused"
    };
    Ok(Some(String::from_str(alloc, word)?))
}
