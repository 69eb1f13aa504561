// How many bytes each field and part of a header takes, in their order.
ghost use Rattle.std.specs.Prelude.{◌≡◌};
ghost use Rattle.reading.specs.Fields.{PropertiesSizes};
ghost use Rattle.fields.specs.Field.{counts, properties_widths, security_widths};

use octets::count::{Bytes, smaller};
use octets::padding::padding;
use rules::properties::PropertiesFields;
use rules::security::SecurityFields;

#[tactic(auto, unfolding(crate::specs::Field::security_widths, crate::specs::Field::widths, rules::specs::Security::security_row, rules::specs::Row::width))]
pub(crate) fn security_widths(f: SecurityFields) -> [Bytes; 17]
    ensures { counts result ≡ security_widths f }
{
    let info = f.provider_info_size;
    let kind = smaller(Bytes(4), info);
    [
        Bytes(2),
        Bytes(2),
        Bytes(2),
        Bytes(2),
        Bytes(4),
        Bytes(4),
        f.sender_id_size,
        padding(f.sender_id_size),
        f.encryption_key_size,
        padding(f.encryption_key_size),
        f.signature_size,
        padding(f.signature_size),
        f.sender_cert_size,
        padding(f.sender_cert_size),
        kind,
        Bytes(info.0 - kind.0),
        padding(info),
    ]
}

#[tactic(auto, unfolding(crate::specs::Field::properties_widths, crate::specs::Field::widths, rules::specs::Properties::properties_row, rules::specs::Row::width))]
pub(crate) fn properties_widths(f: PropertiesFields) -> [Bytes; 16]
    requires { PropertiesSizes f }
    ensures { counts result ≡ properties_widths f }
{
    let label = f.label_length.bytes();
    let all = 56 + label.0 + f.extension_size.0 + f.message_size.0;
    [
        Bytes(1),
        Bytes(1),
        Bytes(2),
        Bytes(20),
        Bytes(4),
        Bytes(4),
        Bytes(4),
        Bytes(4),
        Bytes(4),
        Bytes(4),
        Bytes(4),
        Bytes(4),
        label,
        f.extension_size,
        f.message_size,
        padding(Bytes(all)),
    ]
}
