//! What `backup` and `restore` take.

/// What `backup` takes.
pub(crate) const BACKUP: &str = "\
port
to
route
timeout
folder|text DIR|always||The folder for the files, such as file-1.bin, and for their list, `manifest`, with a line `SHA256 LENGTH NAME` for each. It is created if it does not exist; files with these names are overwritten once all files are saved, and if one is not, none is
device|index N 4194303|never|OBJECTS|Saves all files in the object-list of the device with this instance, 0 to 4194303; by default 4194303, which stands for any instance, and which not every device accepts
OBJECTS|several|never||The files to save, such as file:1, each by type and instance; by default all files in the device's object-list. If files are named, `manifest` keeps the lines of other files from an earlier backup; otherwise it lists only the files that this backup saved";

/// What `restore` takes.
pub(crate) const RESTORE: &str = "\
port
to
route
timeout
folder|text DIR|always||The folder that `bac backup` created; the files that its `manifest` lists are written back. If one of them is missing or does not match its digest, nothing is written";
