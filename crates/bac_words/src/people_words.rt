//! The commands for people, and what `read`, `write` and `points` take.
use crate::backup_words::{BACKUP, RESTORE};
use crate::file_words::{GET, GET_EXAMPLES, PUT, PUT_EXAMPLES};
use crate::words::Grammar;

/// Examples for `read`.
const READ_EXAMPLES: &str = "\
OBJECT is an object by type and instance, such as analog-input:1. PROPERTY is a property of it, such as units; without one, its present-value is read

Example: bac read analog-input:1
Example: bac read --to 192.168.1.20 analog-input:1 present-value units analog-input:2
Example: bac read --to 192.168.1.20 --json analog-value:1 priority-array";

/// What `read` takes.
const READ: &str = "\
OBJECT|several|always||The properties to read: OBJECT [PROPERTY].., repeated for more objects. If more than one property is read, each line is the object, the property and the value, with tabs between
port
to
route
timeout
json|flag|never||Prints each result as a JSON object, one per line, as `bac ask` does
csv|flag|never|json|Prints each result as a CSV row, below a row with the names of the columns, as `bac ask` does";

/// Examples for `write`.
const WRITE_EXAMPLES: &str = "\
VALUE is written as `bac read` prints it: 21.5, active, degrees-celsius, hex:0AFF, null to relinquish, or a text as it is (in a text property, null is a text too). Its kind is that of the value that the property has now

Example: bac write analog-value:1 21.5
Example: bac write --to 192.168.1.20 --priority 8 binary-output:1 active
Example: bac write --to 192.168.1.20 --priority 8 binary-output:1 null
Example: bac write analog-value:1 description 'Zone setpoint'";

/// What `write` takes.
const WRITE: &str = "\
OBJECT|several|always||The property to write, and its new value: OBJECT [PROPERTY] VALUE; without a property, the present-value
priority|number N 16|never||The priority of the write, 1 (highest) to 16 (lowest)
kind|choice KIND|never||The kind of VALUE: null, boolean, unsigned, signed, real, double, octets, text, bits, enumerated, date, time or object. By default the kind of the value that the property has now; required if that is null, or the property has no value or several
port
to
route
timeout";

/// Examples for `points`.
const POINTS_EXAMPLES: &str = "\
Example: bac points
Example: bac points --to 192.168.1.20
Example: bac points --to 192.168.1.20 --device 100 --csv > points.csv";

/// What `points` takes.
const POINTS: &str = "\
port
to
route
timeout
device|index N 4194303|never||The instance of the device, 0 to 4194303; by default 4194303, which stands for any instance, and which not every device accepts
json|flag|never||Prints each object as a JSON object, one per line
csv|flag|never|json|Prints each object as a CSV row, below a row with the names of the columns";

/// The commands for people.
const PEOPLE: &[Grammar] = &[
    Grammar {
        name: "read",
        about: "Prints values of a device's objects, one per line, in readable form",
        after: READ_EXAMPLES,
        words: READ,
    },
    Grammar {
        name: "write",
        about: "Writes a value of an object, and reads it back",
        after: WRITE_EXAMPLES,
        words: WRITE,
    },
    Grammar {
        name: "points",
        about: "Lists the objects of a device, one per line, with name, value, units, description and status. The columns are aligned on a terminal; elsewhere tabs stand between them",
        after: POINTS_EXAMPLES,
        words: POINTS,
    },
    Grammar {
        name: "get",
        about: "Reads a file of a device as a whole, and prints its octets or writes them to a file",
        after: GET_EXAMPLES,
        words: GET,
    },
    Grammar {
        name: "put",
        about: "Writes a file into one of a device, which has these octets then and no others",
        after: PUT_EXAMPLES,
        words: PUT,
    },
    Grammar {
        name: "backup",
        about: "Saves files of a device in a folder, with their digests",
        after: "Example: bac backup --device 100 --folder saved\nExample: bac backup --to 192.168.1.20 --folder saved file:1 file:2",
        words: BACKUP,
    },
    Grammar {
        name: "restore",
        about: "Restores files that `bac backup` saved, reads them back from the device, and compares their digests",
        after: "Example: bac restore --folder saved\nExample: bac restore --to 192.168.1.20 --folder saved",
        words: RESTORE,
    },
];

/// Those commands.
pub(crate) fn people() -> &'static [Grammar] {
    PEOPLE
}
