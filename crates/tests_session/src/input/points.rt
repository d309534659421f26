// Points by phrases and names.
use opa_case::InstanceId;
use opa_io::Txt;
use opa_model::{AttrId, Model};
use std::alloc::Global;
use std::test::Fail;

/// The attribute of a phrase.
pub fn attribute(model: &Model, phrase: &str) -> Result<AttrId, Fail> {
    match model.find_attribute(phrase) {
        Some(attr) => Ok(attr),
        None => Err(Fail::new("no attribute has this phrase")),
    }
}

/// The instance of an attribute's entity with a name.
pub fn instance(
    alloc: Global,
    model: &Model,
    attr: AttrId,
    name: &str,
) -> Result<InstanceId, Fail> {
    if attr.0 >= model.attribute_count() {
        return Err(Fail::new("no such attribute"));
    }
    Ok(InstanceId {
        entity: model.attribute(attr).entity,
        name: Txt::from_str(alloc, name)?,
    })
}
