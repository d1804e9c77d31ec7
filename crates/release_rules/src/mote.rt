//! What a mote has.

ghost use Rattle.std.specs.Prelude.{◌≡◌, IfOk, Some};
ghost use Rattle.std.specs.Option.{option_map};
ghost use Rattle.release_rows.specs.View.{Told, Reads};
ghost use Rattle.http_bodies.specs.Replies.{reply_text, mote_reply};
ghost use Rattle.release_rows.specs.Tables.{acknowledged};
ghost use Rattle.release_rules.specs.Motes.{named_parts, text_of, mote_text};

use component_package::Text;
use http_bodies::{Name, Part, mote_body as body_of_mote};
use release_rows::{Numbered, Rows, RowsFault};
use std::alloc::Global;

// Components with their names, where each has one.
fn name_parts<R: Rows>(
    alloc: Global,
    rows: &mut R,
    parts: &[Numbered],
) -> Result<Option<Vec<Part>>, RowsFault>
    ensures parts { IfOk result (λ r. Told (R.view rows.old) (λ t. option_map (λ v. v.items) r ≡ named_parts t parts.now)) }
    ensures reads { Reads result (R.view rows.old) (R.view rows.new) }
{
    let mut named = Vec::new(alloc);
    for part in parts {
        let Some(name) = rows.component_name(part.component)? else {
            return Ok(None);
        };
        let component = Name::of(String::from_str(alloc, name.as_str())?);
        named.push(Part {
            component,
            version: part.version,
        })?;
    }
    Ok(Some(named))
}

// The text of a mote that has these components.
fn spell<R: Rows>(
    alloc: Global,
    rows: &mut R,
    mote: &str,
    release: u32,
    named: &[Part],
) -> Result<Text, RowsFault>
    ensures text { IfOk result (λ r. Told (R.view rows.old) (λ t. r ≡ reply_text (mote_reply (acknowledged t mote.now) named.now mote.now release))) }
    ensures reads { Reads result (R.view rows.old) (R.view rows.new) }
{
    let acknowledged = rows.acknowledged(mote)?;
    let text = body_of_mote(alloc, acknowledged, named, mote, release)?;
    Ok(Text::of(text))
}

// The text of a mote that has these components, by their numbers.
fn describe<R: Rows>(
    alloc: Global,
    rows: &mut R,
    mote: &str,
    release: u32,
    parts: &[Numbered],
) -> Result<Option<Text>, RowsFault>
    ensures text { IfOk result (λ r. Told (R.view rows.old) (λ t. r ≡ text_of t mote.now release (Some parts.now))) }
    ensures reads { Reads result (R.view rows.old) (R.view rows.new) }
{
    let Some(named) = name_parts(alloc, rows, parts)? else {
        return Ok(None);
    };
    let text = spell(alloc, rows, mote, release, &named)?;
    Ok(Some(text))
}

/// The text that says what a mote has, `{"acknowledged":A,"components":[["name",V],..],"mote":"m","release":N}`: the components of its
/// last release, N, in the order in which they are linked, and the release that it said it runs, 0 where it said none. There is none where
/// the mote has no release.
///
/// `Failed` comes only where a call on the rows failed, and `Memory` where there was none.
pub fn mote_body<R: Rows>(
    alloc: Global,
    rows: &mut R,
    mote: &str,
) -> Result<Option<Text>, RowsFault>
    ensures text { IfOk result (λ r. Told (R.view rows.old) (λ t. r ≡ mote_text t mote.now)) }
    ensures reads { Reads result (R.view rows.old) (R.view rows.new) }
{
    let last = rows.release_count(mote)?;
    match rows.release(mote, last)? {
        Some(parts) => {
            let text = describe(alloc, rows, mote, last, parts.as_slice())?;
            Ok(text)
        }
        None => Ok(None),
    }
}
