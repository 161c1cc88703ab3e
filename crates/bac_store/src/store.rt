//! The store.
ghost use Rattle.std.specs.Prelude.{◌≡◌, ◌≤◌, ◌↔◌, length, map, None, IsTrue, IfErr, IfOk, MatchResult, OnOk, OnErr};
ghost use Rattle.bac_service.specs.Values.{Request as RequestView};
ghost use Rattle.bac_service.specs.Views.{owned_reply_view, request_view};
ghost use Rattle.bac_store.specs.AtNode.{change_fault, changed, IsFaultOf, Change as ChangeView};
ghost use Rattle.bac_store.specs.Changes.{after, HoldsOctets, IsGranted};
ghost use Rattle.bac_store.specs.Described.{IsDescribedBy, IsDescriptionFault};
ghost use Rattle.bac_store.specs.Kept.{Fits, IsInOrder};
ghost use Rattle.bac_store.specs.Made.{IsMadeBy, IsMadeOf, IsRefused, IsRefusedBy};
ghost use Rattle.bac_store.specs.Plans.{with_effect, IsPlanFor, IsPlanOn};
ghost use Rattle.bac_store.specs.Replies.{reply_to};
ghost use Rattle.bac_store.specs.Views.{change_view, effect_view, object_view};
ghost use Rattle.bac_value.specs.Views.{object_identifier_view};

use crate::change::Change;
use crate::change_fault::ChangeFault;
use crate::changing::{set_contents, set_octets, set_values};
use crate::comparing::are_same_objects;
use crate::copying::{copied, copied_octets};
use crate::describing::check_described;
use crate::description_fault::{DescriptionFault, DescriptionFlaw, of_all};
use crate::entry::StoredObject;
use crate::making::entries_made;
use crate::object::Object;
use crate::object_list::{object_list, with_lists};
use crate::ordering::{are_distinct, sort_and_check_each, sort_objects};
use crate::permitting::{permit_contents, permitted_values};
use crate::planned::{Planned, StoreEffect};
use crate::preparing::{plan_read_file, plan_read_property, plan_write_file, plan_write_property};
use crate::rule::Rule;
use crate::store_fault::StoreFault;
use bac_service::{AnyRequest, OwnedReply, Request};
use bac_value::{NoMemory, ObjectIdentifier};
use std::alloc::Global;
use std::marker::Model;

/// The objects of a device with their properties and files, in ascending order of object and property for binary searches.
#[derive(Drop)]
pub struct Store {
    pub(crate) objects: Vec<StoredObject>,
}

impl Model for Store {
    ghost use Rattle.bac_store.specs.Stores as spec;

    ghost Value = { spec.Store };

    ghost use Rattle.std.specs.Prelude.{map};
    ghost use Rattle.bac_store.specs.Kept.{IsInOrder};
    ghost use Rattle.bac_store.specs.Views.{entry_view};

    ghost view = { λ s. map entry_view s.objects.items };

    ghost invariant = { λ s. IsInOrder (map entry_view s.objects.items) };
}

impl Store {
    /// Creates a store from some objects, in any order.
    ///
    /// Returns `Duplicate` exactly if two objects have the same identifier; otherwise `BadObject` exactly if an object has
    ///
    /// - a type other than 0, 2, 5, 8, 10 and 128 to 1,023, or instance 4,194,303;
    /// - a name or values whose encoding is longer than [`VALUE_LIMIT`](crate::VALUE_LIMIT);
    /// - a listed property other than 28, 85 and 512 to 4,194,303, or the same one twice;
    /// - a property 28 that is not one CharacterString;
    /// - an 85 of types 0 and 2 that is not one Real, or an 85 of type 5 that is not Enumerated 0 or 1;
    /// - limits ([`Allowed`](crate::Allowed)) that don't allow its values, or with a value of another kind than they are;
    /// - contents of a file although its type is not 10, none although it is, or more than [`FILE_LIMIT`](crate::FILE_LIMIT) octets.
    ///
    /// Returns `NoMemory` if the objects are valid and an allocation fails.
    pub fn new(alloc: Global, objects: Vec<Object>) -> Result<Store, StoreFault>
        ensures { MatchResult result (λ s. IsMadeOf (map object_view objects.items) s) (λ e. IsRefused (map object_view objects.items) e) }
    {
        Store::ruled(alloc, Rule::Profile, objects)
    }

    /// Creates a store from a description: objects of any type with any properties, in any order.
    ///
    /// It refuses the first object, in the given order, that has
    ///
    /// - instance 4,194,303;
    /// - a name or values whose encoding is longer than [`VALUE_LIMIT`](crate::VALUE_LIMIT);
    /// - contents of a file although its type is not 10, none although it is, or more than [`FILE_LIMIT`](crate::FILE_LIMIT) octets;
    /// - a listed property that is computed (41, 42, 75, 76, 77 or 79) or above 4,194,303, or the same one twice;
    /// - a description (28) that is not one CharacterString;
    /// - a present-value (85) that is not one Real for the analog types (0, 1, 2), or Enumerated 0 or 1 for the binary types (3, 4, 5);
    /// - a present-value (85) that is not one Unsigned from 1 on for the multi-state types (13, 14, 19);
    /// - limits ([`Allowed`](crate::Allowed)) that don't allow its values, or with a value of another kind than they are;
    /// - the identifier or the name of an earlier object, or type 8 as an earlier one has.
    ///
    /// Then it refuses more than [`OBJECTS_LIMIT`](crate::OBJECTS_LIMIT) objects, and last a list without a device (8).
    ///
    /// The object-list (76) of the device is computed here: the identifiers of all objects in ascending order. It is not writable.
    ///
    /// Returns `NoMemory` if the objects are valid and an allocation fails.
    pub fn describing(alloc: Global, objects: Vec<Object>) -> Result<Store, DescriptionFault>
        ensures { MatchResult result (λ s. IsDescribedBy (map object_view objects.items) s) (λ e. IsDescriptionFault (map object_view objects.items) e) }
    {
        check_described(&objects)?;
        let list = object_list(alloc, &objects)?;
        let objects = with_lists(alloc, objects, &list)?;
        match Store::ruled(alloc, Rule::Described, objects) {
            Ok(store) => Ok(store),
            // described objects are distinct and fit a store, so only memory can be missing
            Err(_) => Err(of_all(DescriptionFlaw::NoMemory)),
        }
    }

    /// Creates a store from objects that this rule takes.
    fn ruled(alloc: Global, rule: Rule, objects: Vec<Object>) -> Result<Store, StoreFault>
        ensures { MatchResult result (λ s. IsMadeBy rule (map object_view objects.items) s) (λ e. IsRefusedBy rule (map object_view objects.items) e) }
    {
        let mut objects = objects;
        sort_objects(&mut objects);
        if !are_distinct(&objects) {
            return Err(StoreFault::Duplicate);
        }
        if !sort_and_check_each(rule, &mut objects) {
            return Err(StoreFault::BadObject);
        }
        Ok(Store::of_ordered(alloc, objects)?)
    }

    /// The store of valid objects that are in order.
    pub(crate) fn of_ordered(alloc: Global, objects: Vec<Object>) -> Result<Store, NoMemory>
        requires { IsInOrder (map object_view objects.items) }
        ensures { IfOk result (λ s. s ≡ map object_view objects.items) }
    {
        let objects = entries_made(alloc, objects)?;
        Ok(Store { objects })
    }

    /// The plan for a request, with all the memory that its reply and its effect need. The store is unchanged.
    ///
    /// The reply is an Error in the cases of docs/PROTOCOL.md, "The object store". If it is an Error, and for a read, the plan changes nothing.
    /// `NoMemory` is tested last; it is returned only if the reply is not an Error and the reply or the effect contains octets.
    pub fn prepare(&self, alloc: Global, request: &Request<'_>) -> Result<Planned, NoMemory>
        ensures plan { IfOk result (λ p. IsPlanFor self.now (request_view request.now) p) }
        ensures last { OnErr result (IsGranted self.now (request_view request.now)) }
        ensures held { OnErr result (HoldsOctets self.now (request_view request.now)) }
    {
        let objects = self.objects.as_slice();
        match *request {
            AnyRequest::ReadFile(read) => plan_read_file(alloc, objects, read),
            AnyRequest::WriteFile(write) => plan_write_file(alloc, objects, write),
            AnyRequest::ReadProperty(reference) => plan_read_property(alloc, objects, reference),
            AnyRequest::WriteProperty(write) => plan_write_property(alloc, objects, write),
        }
    }

    /// Applies the effect of a plan that was prepared on the store in its current state, and returns the reply. It does not allocate.
    pub fn commit(&mut self, plan: Planned) -> OwnedReply
        requires prepared { IsPlanOn self.old plan }
        ensures reply { owned_reply_view result ≡ plan.reply }
        ensures effect { self.new ≡ with_effect plan.effect self.old }
        ensures after { (r : RequestView) → IsPlanFor self.old r plan → self.new ≡ after self.old r }
    {
        let Planned { reply, effect } = plan;
        self.make(effect);
        reply
    }

    /// Applies an effect.
    fn make(&mut self, effect: StoreEffect)
        requires { Fits (effect_view effect) }
        ensures { self.new ≡ with_effect (effect_view effect) self.old }
    {
        match effect {
            StoreEffect::Nothing => {}
            StoreEffect::Values {
                object,
                property,
                values,
            } => set_values(&mut self.objects, object, property, values),
            StoreEffect::Octets { object, splice } => set_octets(&mut self.objects, object, splice),
            StoreEffect::Contents { object, octets } => set_contents(
                &mut self.objects,
                object,
                octets,
            ),
        }
    }

    /// Prepares a request, applies the effect of its plan, and returns the reply. Only the plan allocates. After an `Err` the store is
    /// unchanged; `NoMemory` is tested last, as in [`Store::prepare`].
    pub fn perform(&mut self, alloc: Global, request: &Request<'_>) -> Result<OwnedReply, NoMemory>
        ensures reply { IfOk result (λ r. owned_reply_view r ≡ reply_to self.old (request_view request.now)) }
        ensures after { OnOk result (self.new ≡ after self.old (request_view request.now)) }
        ensures err { OnErr result (self.new ≡ self.old) }
        ensures last { OnErr result (IsGranted self.old (request_view request.now)) }
        ensures held { OnErr result (HoldsOctets self.old (request_view request.now)) }
    {
        let Planned { reply, effect } = self.prepare(alloc, request)?;
        self.make(effect);
        Ok(reply)
    }

    /// Sets the values of a listed property locally, whether or not it may be written over the network, and whatever its limits are. The octets are
    /// data (clause 20.2) as WriteProperty takes them, at most [`VALUE_LIMIT`](crate::VALUE_LIMIT) of them. They are of the property's kind (a
    /// property without a kind takes any data), and Enumerated 0 or 1 for the present-value of a binary-value.
    ///
    /// The faults are tested in the order of their numbers, and the allocation of one copy of the octets last. After an `Err` the store
    /// is unchanged.
    pub fn set_value(
        &mut self,
        alloc: Global,
        object: ObjectIdentifier,
        property: u32,
        octets: &[u8],
    ) -> Result<(), ChangeFault>
        ensures may { OnOk result (change_fault self.old (ChangeView.Value (object_identifier_view object) property octets.now) ≡ None) }
        ensures made { OnOk result (self.new ≡ changed (ChangeView.Value (object_identifier_view object) property octets.now) self.old) }
        ensures fault { IfErr result (IsFaultOf self.old (ChangeView.Value (object_identifier_view object) property octets.now)) }
        ensures err { OnErr result (self.new ≡ self.old) }
    {
        let data = permitted_values(&self.objects, object, property, octets)?;
        let values = data.to_owned(alloc)?;
        self.make(StoreEffect::Values {
            object,
            property,
            values,
        });
        Ok(())
    }

    /// Replaces all octets of a file locally, whether or not it may be written over the network: by at most
    /// [`FILE_LIMIT`](crate::FILE_LIMIT) octets.
    ///
    /// Returns `NoSuchObject` if no object has this identifier, or it is not a file; `TooLong`; and last `NoMemory`, if the allocation
    /// of one copy of the octets fails. After an `Err` the store is unchanged.
    pub fn set_file(
        &mut self,
        alloc: Global,
        object: ObjectIdentifier,
        octets: &[u8],
    ) -> Result<(), ChangeFault>
        ensures may { OnOk result (change_fault self.old (ChangeView.File (object_identifier_view object) octets.now) ≡ None) }
        ensures made { OnOk result (self.new ≡ changed (ChangeView.File (object_identifier_view object) octets.now) self.old) }
        ensures fault { IfErr result (IsFaultOf self.old (ChangeView.File (object_identifier_view object) octets.now)) }
        ensures err { OnErr result (self.new ≡ self.old) }
    {
        permit_contents(&self.objects, object, octets)?;
        let octets = copied_octets(alloc, octets)?;
        self.make(StoreEffect::Contents { object, octets });
        Ok(())
    }

    /// Makes a local change: [`Store::set_value`] or [`Store::set_file`].
    pub fn change(&mut self, alloc: Global, change: &Change) -> Result<(), ChangeFault>
        ensures may { OnOk result (change_fault self.old (change_view change.now) ≡ None) }
        ensures made { OnOk result (self.new ≡ changed (change_view change.now) self.old) }
        ensures fault { IfErr result (IsFaultOf self.old (change_view change.now)) }
        ensures err { OnErr result (self.new ≡ self.old) }
    {
        match change {
            Change::Value {
                object,
                property,
                octets,
            } => self.set_value(alloc, *object, *property, octets),
            Change::File { object, octets } => self.set_file(alloc, *object, octets),
        }
    }

    /// Why a local change would not be made, apart from failed allocations: the first fault of [`Store::change`]. It does not
    /// allocate.
    pub fn fault_of(&self, change: &Change) -> Option<ChangeFault>
        ensures { result ≡ change_fault self.now (change_view change.now) }
    {
        match change {
            Change::Value {
                object,
                property,
                octets,
            } => permitted_values(&self.objects, *object, *property, octets).err(),
            Change::File { object, octets } => permit_contents(
                &self.objects,
                *object,
                octets,
            ).err(),
        }
    }

    /// The number of objects.
    pub fn object_count(&self) -> usize
        ensures { result ≡ length self.now }
    {
        self.objects.len()
    }

    /// Copies the store. Returns an `Err` if an allocation fails, which can't happen for a store without objects.
    pub fn copy(&self, alloc: Global) -> Result<Store, NoMemory>
        ensures same { IfOk result (λ s. s ≡ self.now) }
        ensures some { OnErr result (1 ≤ length self.now) }
    {
        let objects = copied(alloc, &self.objects)?;
        Ok(Store { objects })
    }

    /// Whether two stores are equal: the same objects, with equal names, properties, flags and files. It passes over both once.
    pub fn same(&self, other: &Store) -> bool
        ensures { IsTrue result ↔ (self.now ≡ other.now) }
    {
        are_same_objects(&self.objects, &other.objects)
    }
}
