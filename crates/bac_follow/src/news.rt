//! What is new in a document.
ghost use Rattle.std.specs.Prelude.{◌≡◌, map, IfOk, IfSome, OnErr, OnOk};
ghost use Rattle.std.specs.List.{All};
ghost use Rattle.std.specs.Option.{option_map};
ghost use Rattle.bac_value.specs.Views.{object_identifier_view};
ghost use Rattle.bac_store.specs.Views.{change_view, object_view};
ghost use Rattle.bac_follow.specs.Following.{IsNews, all_news, file_change, value_change, with_news, with_object};

use crate::following::Documents;
use bac_store::{Change, Object};
use bac_value::{NoMemory, ObjectIdentifier};
use std::alloc::Global;

/// New values of a property, if it has other ones than before.
fn value_news(
    alloc: Global,
    documents: Documents<'_>,
    object: ObjectIdentifier,
    property: u32,
) -> Result<Option<Change>, NoMemory>
    ensures all { IfOk result (λ news. option_map change_view news ≡ value_change documents.entry.before.now documents.entry.now.now (object_identifier_view object) property) }
    ensures news { IfOk result (λ news. IfSome news (λ c. IsNews documents.entry.before.now documents.entry.now.now (change_view c))) }
{
    let Some(listed) = documents.now.listed(object, property) else {
        return Ok(None);
    };
    if let Some(old) = documents.before.listed(object, property) {
        if old.octets == listed.octets {
            return Ok(None);
        }
    }
    let octets = Vec::from_slice(alloc, listed.octets)?;
    Ok(Some(Change::Value {
        object,
        property,
        octets,
    }))
}

/// New octets of a file, if it has other ones than before.
fn file_news(
    alloc: Global,
    documents: Documents<'_>,
    object: ObjectIdentifier,
) -> Result<Option<Change>, NoMemory>
    ensures all { IfOk result (λ news. option_map change_view news ≡ file_change documents.entry.before.now documents.entry.now.now (object_identifier_view object)) }
    ensures news { IfOk result (λ news. IfSome news (λ c. IsNews documents.entry.before.now documents.entry.now.now (change_view c))) }
{
    let Some(file) = documents.now.file(object) else {
        return Ok(None);
    };
    if let Some(old) = documents.before.file(object) {
        if old.octets == file.octets {
            return Ok(None);
        }
    }
    let octets = Vec::from_slice(alloc, &file.octets)?;
    Ok(Some(Change::File { object, octets }))
}

/// The news, with one more if there is one.
fn add(
    changes: &mut Vec<Change>,
    documents: Documents<'_>,
    news: Option<Change>,
) -> Result<(), NoMemory>
    requires old { All (IsNews documents.before.now documents.now.now) (map change_view changes.old.items) }
    requires new { IfSome news (λ c. IsNews documents.before.now documents.now.now (change_view c)) }
    ensures all { OnOk result (map change_view changes.new.items ≡ with_news (map change_view changes.old.items) (option_map change_view news)) }
    ensures news { OnOk result (All (IsNews documents.entry.before.now documents.entry.now.now) (map change_view changes.new.items)) }
{
    if let Some(change) = news {
        changes.push(change)?;
    }
    Ok(())
}

/// The news, with those of an object.
fn add_object(
    alloc: Global,
    documents: Documents<'_>,
    object: &Object,
    changes: &mut Vec<Change>,
) -> Result<(), NoMemory>
    requires { All (IsNews documents.before.now documents.now.now) (map change_view changes.old.items) }
    ensures all { OnOk result (map change_view changes.new.items ≡ with_object documents.entry.before.now documents.entry.now.now (object_view object.now) (map change_view changes.old.items)) }
    ensures news { OnOk result (All (IsNews documents.entry.before.now documents.entry.now.now) (map change_view changes.new.items)) }
{
    for property in &object.properties {
        let news = value_news(alloc, documents, object.id, property.number)?;
        add(changes, documents, news)?;
    }
    let news = file_news(alloc, documents, object.id)?;
    add(changes, documents, news)
}

/// The news of some objects.
pub(crate) fn news_of(
    alloc: Global,
    documents: Documents<'_>,
    objects: &[Object],
) -> Result<Vec<Change>, NoMemory>
    ensures all { IfOk result (λ v. map change_view v.items ≡ all_news documents.entry.before.now documents.entry.now.now (map object_view objects.now)) }
    ensures news { IfOk result (λ v. All (IsNews documents.entry.before.now documents.entry.now.now) (map change_view v.items)) }
{
    let mut changes = Vec::new(alloc);
    for object in objects {
        add_object(alloc, documents, object, &mut changes)?;
    }
    Ok(changes)
}
