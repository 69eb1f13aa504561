// Where a section lies that passed every step.
use octets::count::Bytes;
use rules::properties::PropertiesFields;

// Its MessagePropertiesHeader begins at `start`, where a SecurityHeader ends if one stands first.
#[derive(Clone, Copy)]
pub struct Placed {
    pub start: Bytes,
    pub properties: PropertiesFields,
    pub end: Bytes,
}
