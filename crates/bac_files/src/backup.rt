//! What `backup` and `restore` do: whole files of a peer, in a folder.
ghost use Rattle.std.specs.Prelude.{IfErr};
ghost use Rattle.bac_text.specs.Statuses.{IsStop};

use crate::comparing::{Comparison, compare, digest_of};
use crate::file_news::{FileNews, news_of_unput, print_news, print_not_read};
use crate::file_task::{ChosenFiles, FileTask};
use crate::folder::{Folder, MANIFEST};
use crate::listed_files::{listed_files, objects_in};
use crate::manifest::{SavedFile, file_name};
use crate::peer_file::{PeerFile, end_words};
use crate::reasons::{
    print_empty_manifest, print_no_files, print_nothing_restored, print_nothing_saved,
};
use crate::saved_files::{are_saved, has_object, manifest_of};
use crate::whole_files::client_of;
use crate::whole_reading::{Got, read_whole};
use crate::whole_writing::{Put, replace_whole};
use bac_asking::{Asking, Client, outcome_of, tell_no_answer, tells_unheard};
use bac_driver::AskEnd;
use bac_environment::{ClientSockets, Environment, OpenFiles};
use bac_npdu::Peer;
use bac_point_report::is_silent;
use bac_text::{Status, no_memory};
use bac_value::ObjectIdentifier;
use std::alloc::Global;
use std::io::Write;

/// The files of a peer, and the folder that has them.
#[derive(Drop)]
struct Backup<'e, F, M: ClientSockets> {
    asking: &'e Asking,
    peer: Peer,
    client: Client<'e, M>,
    folder: Folder<'e, F>,
    /// Whether an ask got no answer; nothing more is asked then.
    is_silent: bool,
    /// Whether it began to write into a file of the peer.
    has_begun: bool,
}

/// The words for an object in a request.
fn object_words<E: Write>(
    alloc: Global,
    object: ObjectIdentifier,
    err: &mut E,
) -> Result<String, Status>
    ensures told { IfErr result IsStop }
{
    let ObjectIdentifier { kind, instance, .. } = object;
    match format!(in alloc; "{kind}:{instance}") {
        Ok(words) => Ok(words),
        Err(_) => Err(no_memory(err)),
    }
}

/// The name of the file in a folder that has the octets of an object.
fn name_in<E: Write>(alloc: Global, object: ObjectIdentifier, err: &mut E) -> Result<String, Status>
    ensures told { IfErr result IsStop }
{
    let Ok(name) = file_name(alloc, object) else {
        return Err(no_memory(err));
    };
    match std::str::from_utf8(&name) {
        Ok(text) => match String::from_str(alloc, text) {
            Ok(name) => Ok(name),
            Err(_) => Err(no_memory(err)),
        },
        Err(_) => Err(no_memory(err)),
    }
}

/// The files that a backup is to save.
#[derive(Clone, Copy)]
struct Wanted<'o> {
    objects: &'o [ObjectIdentifier],
    /// Whether the manifest also lists other files of an earlier one.
    keeps_others: bool,
}

impl<'o> Wanted<'o> {
    /// These alone: all files of a device.
    fn all(objects: &'o [ObjectIdentifier]) -> Wanted<'o> {
        Wanted {
            objects,
            keeps_others: false,
        }
    }

    /// These, beside others that were saved before.
    fn named(objects: &'o [ObjectIdentifier]) -> Wanted<'o> {
        Wanted {
            objects,
            keeps_others: true,
        }
    }

    /// Whether all of them are among some files.
    fn are_all_in(&self, saved: &[SavedFile]) -> bool {
        self.objects.iter().all(|object| has_object(saved, *object))
    }

    /// The files of an earlier manifest that the new one also lists, if they are not saved anew.
    fn others_of<'s>(&self, earlier: &'s [SavedFile]) -> &'s [SavedFile] {
        if self.keeps_others { earlier } else { &[] }
    }
}

impl<F: OpenFiles, M: ClientSockets> Backup<'_, F, M> {
    /// If an ask got no answer, notes it, and `err` says so.
    fn note_silence<E: Write>(&mut self, end: &AskEnd, err: &mut E) {
        let outcome = outcome_of(end);
        if is_silent(outcome) {
            self.is_silent = true;
            let timeout = self.asking.timeout;
            tell_no_answer(self.folder.alloc, self.peer, timeout, outcome, err);
        }
    }

    /// Prints that a file was not read to its end, and why. If the last read got no answer, nothing more is asked.
    fn report_not_read<O: Write, E: Write>(
        &mut self,
        object: ObjectIdentifier,
        got: &Got,
        out: &mut O,
        err: &mut E,
    ) -> Result<(), Status>
        ensures told { IfErr result IsStop }
    {
        print_not_read(self.folder.alloc, object, got, out, err)?;
        self.note_silence(&got.last.end, err);
        Ok(())
    }

    /// Reads a file of the peer as a whole.
    fn read<E: Write>(&mut self, object: ObjectIdentifier, err: &mut E) -> Result<Got, Status>
        ensures told { IfErr result IsStop }
    {
        let words = object_words(self.client.station.alloc, object, err)?;
        let file = PeerFile {
            peer: self.peer,
            object: &words,
        };
        read_whole(self.asking, &mut self.client, &file, err)
    }

    /// Writes octets beside the file of the folder for an object, and reads them again. Answers what the manifest is to say of them, and whether the folder has them.
    fn keep<E: Write>(
        &self,
        object: ObjectIdentifier,
        octets: &[u8],
        err: &mut E,
    ) -> Result<(SavedFile, bool), Status>
        ensures told { IfErr result IsStop }
    {
        let name = name_in(self.folder.alloc, object, err)?;
        let there = self.folder.write_unfinished(&name, octets, err)?;
        let file = SavedFile {
            object,
            length: octets.len() as u64,
            digest: digest_of(octets),
        };
        let is_there = are_saved(&file, &there);
        Ok((file, is_there))
    }

    /// Prints that the file of the folder for an object has other octets than it should.
    fn print_damaged<O: Write, E: Write>(
        &self,
        object: ObjectIdentifier,
        out: &mut O,
        err: &mut E,
    ) -> Result<(), Status>
        ensures told { IfErr result IsStop }
    {
        let alloc = self.folder.alloc;
        let name = name_in(alloc, object, err)?;
        print_news(alloc, object, &FileNews::Damaged(&name), out, err)
    }

    /// Writes octets of the peer beside the file of the folder for an object. Answers what the manifest is to say of it; None where the folder does not have them,
    /// which is printed.
    fn keep_whole<O: Write, E: Write>(
        &self,
        object: ObjectIdentifier,
        octets: &[u8],
        out: &mut O,
        err: &mut E,
    ) -> Result<Option<SavedFile>, Status>
        ensures told { IfErr result IsStop }
    {
        let (file, is_there) = self.keep(object, octets, err)?;
        if is_there {
            return Ok(Some(file));
        }
        self.print_damaged(object, out, err)?;
        Ok(None)
    }

    /// Writes what was read of a file of the peer beside the file of the folder, if it was read to its end; otherwise prints that it was not.
    fn keep_got<O: Write, E: Write>(
        &mut self,
        object: ObjectIdentifier,
        got: &Got,
        out: &mut O,
        err: &mut E,
    ) -> Result<Option<SavedFile>, Status>
        ensures told { IfErr result IsStop }
    {
        if got.is_whole {
            return self.keep_whole(object, &got.octets, out, err);
        }
        self.report_not_read(object, got, out, err)?;
        Ok(None)
    }

    /// Reads a file of the peer, and writes it beside that of the folder. Answers what the manifest is to say of it; None where it was not read or not written, which is printed.
    fn save<O: Write, E: Write>(
        &mut self,
        object: ObjectIdentifier,
        out: &mut O,
        err: &mut E,
    ) -> Result<Option<SavedFile>, Status>
        ensures told { IfErr result IsStop }
    {
        let got = self.read(object, err)?;
        let saved = self.keep_got(object, &got, out, err);
        drop(got);
        saved
    }

    /// Reads files of the peer, and writes them beside those of the folder, each once, up to one that gets no answer. Answers those that are there.
    fn save_each<O: Write, E: Write>(
        &mut self,
        objects: &[ObjectIdentifier],
        out: &mut O,
        err: &mut E,
    ) -> Result<Vec<SavedFile>, Status>
        ensures told { IfErr result IsStop }
    {
        let mut saved = Vec::new(self.folder.alloc);
        for object in objects {
            if self.is_silent || has_object(&saved, *object) {
                continue;
            }
            if let Some(file) = self.save(*object, out, err)? {
                if saved.push(file).is_err() {
                    return Err(no_memory(err));
                }
            }
        }
        Ok(saved)
    }

    /// The files of the manifest that an earlier backup left in the folder; none where there is no manifest.
    fn earlier<E: Write>(&self, err: &mut E) -> Result<Vec<SavedFile>, Status>
        ensures told { IfErr result IsStop }
    {
        match self.folder.read_if_there(MANIFEST, err)? {
            Some(text) => self.folder.files_in(&text, err),
            None => Ok(Vec::new(self.folder.alloc)),
        }
    }

    /// The names of files in the folder.
    fn names_of<E: Write>(&self, saved: &[SavedFile], err: &mut E) -> Result<Vec<String>, Status>
        ensures told { IfErr result IsStop }
    {
        let mut names = Vec::new(self.folder.alloc);
        for file in saved {
            let name = name_in(self.folder.alloc, file.object, err)?;
            if names.push(name).is_err() {
                return Err(no_memory(err));
            }
        }
        Ok(names)
    }

    /// Writes the manifest of files that were saved, and of others that it also lists, beside that of the folder.
    fn write_manifest<E: Write>(
        &self,
        saved: &[SavedFile],
        others: &[SavedFile],
        err: &mut E,
    ) -> Result<(), Status>
        ensures told { IfErr result IsStop }
    {
        let Ok(manifest) = manifest_of(self.folder.alloc, saved, others) else {
            return Err(no_memory(err));
        };
        let there = self.folder.write_unfinished(MANIFEST, &manifest, err)?;
        if there == manifest {
            Ok(())
        } else {
            Err(self.folder.print_altered(MANIFEST, err))
        }
    }

    /// Puts files of these names, and at last the manifest, in place of those of the folder.
    fn finish_each<E: Write>(&self, names: &[String], err: &mut E) -> Result<(), Status>
        ensures told { IfErr result IsStop }
    {
        for name in names {
            self.folder.finish(name, err)?;
        }
        self.folder.finish(MANIFEST, err)
    }

    /// Puts files that were saved, and at last their manifest, in place of those of the folder.
    fn finish<E: Write>(&self, saved: &[SavedFile], err: &mut E) -> Result<(), Status>
        ensures told { IfErr result IsStop }
    {
        let names = self.names_of(saved, err)?;
        self.finish_each(&names, err)
    }

    /// Prints that files were saved.
    fn print_saved<O: Write, E: Write>(
        &self,
        saved: &[SavedFile],
        out: &mut O,
        err: &mut E,
    ) -> Result<(), Status>
        ensures told { IfErr result IsStop }
    {
        for file in saved {
            let news = FileNews::Saved(file.length);
            print_news(self.folder.alloc, file.object, &news, out, err)?;
        }
        Ok(())
    }

    /// Puts files that were saved, and their manifest, in place, and prints which they are.
    fn conclude<O: Write, E: Write>(
        &self,
        saved: &[SavedFile],
        out: &mut O,
        err: &mut E,
    ) -> Result<(), Status>
        ensures told { IfErr result IsStop }
    {
        self.finish(saved, err)?;
        self.print_saved(saved, out, err)
    }

    /// Writes the manifest of files, if they are all that are wanted. Answers whether they are.
    fn list_if_all<E: Write>(
        &self,
        wanted: Wanted<'_>,
        saved: &[SavedFile],
        earlier: &[SavedFile],
        err: &mut E,
    ) -> Result<bool, Status>
        ensures told { IfErr result IsStop }
    {
        if !wanted.are_all_in(saved) {
            return Ok(false);
        }
        self.write_manifest(saved, wanted.others_of(earlier), err)?;
        Ok(true)
    }

    /// Writes files of the peer and their manifest beside those of the folder. Answers the files; None where one of them could not be read or written, which is printed.
    fn write_beside<O: Write, E: Write>(
        &mut self,
        wanted: Wanted<'_>,
        earlier: &[SavedFile],
        out: &mut O,
        err: &mut E,
    ) -> Result<Option<Vec<SavedFile>>, Status>
        ensures told { IfErr result IsStop }
    {
        let saved = self.save_each(wanted.objects, out, err)?;
        if self.list_if_all(wanted, &saved, earlier, err)? {
            Ok(Some(saved))
        } else {
            Ok(None)
        }
    }

    /// Saves files of the peer in a folder with an earlier manifest of these files. Where one is not saved, `err` says that the folder is as it was.
    fn save_over<O: Write, E: Write>(
        &mut self,
        wanted: Wanted<'_>,
        earlier: &[SavedFile],
        out: &mut O,
        err: &mut E,
    ) -> Result<bool, Status>
        ensures told { IfErr result IsStop }
    {
        match self.write_beside(wanted, earlier, out, err) {
            Ok(Some(saved)) => {
                self.conclude(&saved, out, err)?;
                Ok(true)
            }
            Ok(None) => {
                print_nothing_saved(self.folder.path, !earlier.is_empty(), err);
                Ok(false)
            }
            Err(status) => {
                print_nothing_saved(self.folder.path, !earlier.is_empty(), err);
                Err(status)
            }
        }
    }

    /// Saves files of the peer. They and their manifest get their names once all of them are written beside those that are there; where one is not saved, none of them
    /// does. Prints which are saved once all are in place. Answers whether they are.
    fn save_all<O: Write, E: Write>(
        &mut self,
        wanted: Wanted<'_>,
        out: &mut O,
        err: &mut E,
    ) -> Result<bool, Status>
        ensures told { IfErr result IsStop }
    {
        self.folder.make(err)?;
        let earlier = self.earlier(err)?;
        self.save_over(wanted, &earlier, out, err)
    }

    /// Saves the files in the object-list of the device with this instance. Answers whether all were saved; prints why not.
    fn save_listed<O: Write, E: Write>(
        &mut self,
        device: u64,
        out: &mut O,
        err: &mut E,
    ) -> Result<bool, Status>
        ensures told { IfErr result IsStop }
    {
        match listed_files(self.asking, &mut self.client, self.peer, device, err)? {
            Some(listed) if listed.is_empty() => {
                print_no_files(err);
                Ok(false)
            }
            Some(listed) => self.save_all(Wanted::all(&listed), out, err),
            None => Ok(false),
        }
    }

    /// Writes octets into a file of the peer, which is to have no others. Answers what was written.
    fn put<E: Write>(
        &mut self,
        object: ObjectIdentifier,
        octets: &[u8],
        err: &mut E,
    ) -> Result<Put, Status>
        ensures told { IfErr result IsStop }
    {
        let words = object_words(self.folder.alloc, object, err)?;
        let file = PeerFile {
            peer: self.peer,
            object: &words,
        };
        self.has_begun = true;
        replace_whole(self.asking, &mut self.client, &file, octets, err)
    }

    /// Prints where not all of so many octets were put into a file of the peer, and why. Answers whether all were.
    fn print_put<O: Write, E: Write>(
        &mut self,
        object: ObjectIdentifier,
        count: usize,
        put: &Put,
        out: &mut O,
        err: &mut E,
    ) -> Result<bool, Status>
        ensures told { IfErr result IsStop }
    {
        if put.is_whole {
            return Ok(true);
        }
        let alloc = self.folder.alloc;
        let Ok(why) = end_words(alloc, &put.last) else {
            return Err(no_memory(err));
        };
        print_news(alloc, object, &news_of_unput(count, put, &why), out, err)?;
        self.note_silence(&put.last.end, err);
        Ok(false)
    }

    /// Writes octets into a file of the peer, and prints where not all were. Answers whether all were.
    fn put_all<O: Write, E: Write>(
        &mut self,
        object: ObjectIdentifier,
        octets: &[u8],
        out: &mut O,
        err: &mut E,
    ) -> Result<bool, Status>
        ensures told { IfErr result IsStop }
    {
        let put = self.put(object, octets, err)?;
        let is_put = self.print_put(object, octets.len(), &put, out, err);
        drop(put);
        is_put
    }

    /// Prints whether a file of the peer, which was read again, has the octets that were put into it. Answers whether it has.
    fn print_compared<O: Write, E: Write>(
        &mut self,
        file: &SavedFile,
        count: usize,
        got: &Got,
        out: &mut O,
        err: &mut E,
    ) -> Result<bool, Status>
        ensures told { IfErr result IsStop }
    {
        let alloc = self.folder.alloc;
        if !got.is_whole {
            self.report_not_read(file.object, got, out, err)?;
            return Ok(false);
        }
        let there = got.octets.len();
        let comparison = compare(count, &file.digest, &got.octets);
        let news = match comparison {
            Comparison::Same => FileNews::Restored(count),
            Comparison::Longer => FileNews::Longer(count, there),
            Comparison::Differs => FileNews::Differs(count, there),
        };
        print_news(alloc, file.object, &news, out, err)?;
        Ok(comparison == Comparison::Same)
    }

    /// Reads a file of the peer again, and prints whether it has the octets that were put into it. Answers whether it has.
    fn compare<O: Write, E: Write>(
        &mut self,
        file: &SavedFile,
        count: usize,
        out: &mut O,
        err: &mut E,
    ) -> Result<bool, Status>
        ensures told { IfErr result IsStop }
    {
        let got = self.read(file.object, err)?;
        let is_same = self.print_compared(file, count, &got, out, err);
        drop(got);
        is_same
    }

    /// The octets of a file of the folder, as many as it is to have, and one more where it is longer; None where it cannot be read, which `err` says.
    fn kept<E: Write>(&self, file: &SavedFile, err: &mut E) -> Result<Option<Vec<u8>>, Status>
        ensures told { IfErr result IsStop }
    {
        let name = name_in(self.folder.alloc, file.object, err)?;
        let most = file.length.saturating_add(1);
        match self.folder.read_front(&name, most, err) {
            Ok(octets) => Ok(Some(octets)),
            Err(Status::CommandLine) => Ok(None),
            Err(status) => Err(status),
        }
    }

    /// Writes the octets of a file of the folder back, if they are those of the manifest, and reads the file again. Answers whether the peer has it then.
    fn restore_octets<O: Write, E: Write>(
        &mut self,
        file: &SavedFile,
        octets: &[u8],
        out: &mut O,
        err: &mut E,
    ) -> Result<bool, Status>
        ensures told { IfErr result IsStop }
    {
        // it may have changed since it was looked at
        if !self.is_undamaged(file, octets, out, err)? {
            return Ok(false);
        }
        if !self.put_all(file.object, octets, out, err)? {
            return Ok(false);
        }
        self.compare(file, octets.len(), out, err)
    }

    /// Writes a file of the folder back, and reads it again. Answers whether the peer has it then.
    fn restore<O: Write, E: Write>(
        &mut self,
        file: &SavedFile,
        out: &mut O,
        err: &mut E,
    ) -> Result<bool, Status>
        ensures told { IfErr result IsStop }
    {
        match self.kept(file, err)? {
            Some(octets) => self.restore_octets(file, &octets, out, err),
            None => Ok(false),
        }
    }

    /// Whether octets are those of a file in the manifest; prints if they are not.
    fn is_undamaged<O: Write, E: Write>(
        &self,
        file: &SavedFile,
        octets: &[u8],
        out: &mut O,
        err: &mut E,
    ) -> Result<bool, Status>
        ensures told { IfErr result IsStop }
    {
        if are_saved(file, octets) {
            return Ok(true);
        }
        self.print_damaged(file.object, out, err)?;
        Ok(false)
    }

    /// Whether the folder has a file as the manifest lists it; prints if it has not.
    fn has_file<O: Write, E: Write>(
        &self,
        file: &SavedFile,
        out: &mut O,
        err: &mut E,
    ) -> Result<bool, Status>
        ensures told { IfErr result IsStop }
    {
        match self.kept(file, err)? {
            Some(octets) => self.is_undamaged(file, &octets, out, err),
            None => Ok(false),
        }
    }

    /// Whether the folder has all of these files as the manifest lists them; prints which it has not.
    fn has_files<O: Write, E: Write>(
        &self,
        files: &[SavedFile],
        out: &mut O,
        err: &mut E,
    ) -> Result<bool, Status>
        ensures told { IfErr result IsStop }
    {
        let mut all = true;
        for file in files {
            let has = self.has_file(file, out, err)?;
            all = all && has;
        }
        Ok(all)
    }

    /// Writes files of the folder back, one after the other, up to one that gets no answer. Answers whether the peer has all of them then.
    fn restore_each<O: Write, E: Write>(
        &mut self,
        files: &[SavedFile],
        out: &mut O,
        err: &mut E,
    ) -> Result<bool, Status>
        ensures told { IfErr result IsStop }
    {
        let mut all = true;
        for file in files {
            let restored = !self.is_silent && self.restore(file, out, err)?;
            all = all && restored;
        }
        Ok(all)
    }

    /// Writes files of the folder back, if all of them are as the manifest lists them; otherwise none. Answers whether the peer has all of them then. If none was
    /// to be written, also as they changed meanwhile, `err` says so.
    fn restore_all<O: Write, E: Write>(
        &mut self,
        files: &[SavedFile],
        out: &mut O,
        err: &mut E,
    ) -> Result<bool, Status>
        ensures told { IfErr result IsStop }
    {
        let all = self.has_files(files, out, err)? && self.restore_each(files, out, err)?;
        if !all && !self.has_begun {
            print_nothing_restored(err);
        }
        Ok(all)
    }
}

/// A client of the peer of a task, beside a folder.
fn backup_in<'e, F: OpenFiles, M: ClientSockets, E: Write>(
    environment: &Environment<'e, F, M>,
    task: &'e FileTask,
    path: &'e str,
    err: &mut E,
) -> Result<Backup<'e, F, M>, Status>
    ensures told { IfErr result IsStop }
{
    let client = client_of(environment, &task.asking, err)?;
    Ok(Backup {
        asking: &task.asking,
        peer: task.peer,
        client,
        folder: Folder {
            alloc: environment.alloc,
            files: environment.files,
            path,
        },
        is_silent: false,
        has_begun: false,
    })
}

/// Saves these files in a folder. Answers whether all were saved.
fn back_up_named<F: OpenFiles, M: ClientSockets, O: Write, E: Write>(
    environment: &Environment<'_, F, M>,
    task: &FileTask,
    objects: &[ObjectIdentifier],
    path: &str,
    out: &mut O,
    err: &mut E,
) -> Result<bool, Status>
    ensures told { IfErr result IsStop }
{
    if tells_unheard(environment, task.peer, err) {
        return Ok(false);
    }
    let mut backup = backup_in(environment, task, path, err)?;
    let done = backup.save_all(Wanted::named(objects), out, err);
    drop(backup);
    done
}

/// Saves the files of a device in a folder. Answers whether all were saved.
fn back_up_listed<F: OpenFiles, M: ClientSockets, O: Write, E: Write>(
    environment: &Environment<'_, F, M>,
    task: &FileTask,
    device: u64,
    path: &str,
    out: &mut O,
    err: &mut E,
) -> Result<bool, Status>
    ensures told { IfErr result IsStop }
{
    if tells_unheard(environment, task.peer, err) {
        return Ok(false);
    }
    let mut backup = backup_in(environment, task, path, err)?;
    let done = backup.save_listed(device, out, err);
    drop(backup);
    done
}

/// Saves files in a folder. Answers whether all were saved.
pub(crate) fn back_up<F: OpenFiles, M: ClientSockets, O: Write, E: Write>(
    environment: &Environment<'_, F, M>,
    task: &FileTask,
    chosen: ChosenFiles<'_, '_>,
    path: &str,
    out: &mut O,
    err: &mut E,
) -> Result<bool, Status>
    ensures told { IfErr result IsStop }
{
    match chosen {
        ChosenFiles::Named(words) => {
            let named = objects_in(environment.alloc, words, err)?;
            back_up_named(environment, task, &named, path, out, err)
        }
        ChosenFiles::Listed(device) => { back_up_listed(environment, task, device, path, out, err) }
    }
}

/// Writes these files of a folder back, and compares what the peer then has. Answers whether it has all of them.
fn restore_listed<F: OpenFiles, M: ClientSockets, O: Write, E: Write>(
    environment: &Environment<'_, F, M>,
    task: &FileTask,
    files: &[SavedFile],
    path: &str,
    out: &mut O,
    err: &mut E,
) -> Result<bool, Status>
    ensures told { IfErr result IsStop }
{
    if files.is_empty() {
        print_empty_manifest(path, err);
        return Ok(false);
    }
    if tells_unheard(environment, task.peer, err) {
        return Ok(false);
    }
    let mut backup = backup_in(environment, task, path, err)?;
    let done = backup.restore_all(files, out, err);
    drop(backup);
    done
}

/// Writes the files of a folder back, and compares what the peer then has. Answers whether it has all of them.
pub(crate) fn restore<F: OpenFiles, M: ClientSockets, O: Write, E: Write>(
    environment: &Environment<'_, F, M>,
    task: &FileTask,
    path: &str,
    out: &mut O,
    err: &mut E,
) -> Result<bool, Status>
    ensures told { IfErr result IsStop }
{
    let folder = Folder {
        alloc: environment.alloc,
        files: environment.files,
        path,
    };
    let files = folder.manifest_files(err)?;
    restore_listed(environment, task, &files, path, out, err)
}
