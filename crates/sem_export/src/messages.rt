// A message as the members of a JSON object.
use crate::words::{object_words, place_word, text_of};
use sem_chart::message_name;
use sem_hint::key_text;
use sem_journal::push_message;
use sem_key::{Key, Object, OutOfMemory};
use sem_msg::{Message, Target};
use sem_names::code_name;
use serde::Serialize;
use std::alloc::Global;

/// A message: its name, its words as in the report, and each of them by its name.
#[derive(Debug, Drop, Serialize)]
pub struct MessageMembers {
    name: &'static str,
    words: String,
    #[serde(skip_serializing_if = "Option::is_none")]
    place: Option<String>,
    #[serde(skip_serializing_if = "Option::is_none")]
    parent: Option<String>,
    #[serde(skip_serializing_if = "Option::is_none")]
    key: Option<String>,
    #[serde(skip_serializing_if = "Option::is_none")]
    object: Option<String>,
    #[serde(skip_serializing_if = "Option::is_none")]
    vpe: Option<u16>,
    #[serde(skip_serializing_if = "Option::is_none")]
    selector: Option<u8>,
    #[serde(skip_serializing_if = "Option::is_none")]
    service: Option<String>,
    #[serde(skip_serializing_if = "Option::is_none")]
    index: Option<u8>,
    #[serde(skip_serializing_if = "Option::is_none")]
    code: Option<&'static str>,
    #[serde(skip_serializing_if = "Option::is_none")]
    accepted: Option<bool>,
    #[serde(skip_serializing_if = "Option::is_none")]
    job: Option<u32>,
}

impl MessageMembers {
    /// What the message says.
    pub fn of(alloc: Global, message: &Message) -> Result<MessageMembers, OutOfMemory> {
        let mut members = MessageMembers::named(alloc, message)?;
        members.put(alloc, message)?;
        Ok(members)
    }

    // Only the name and the words.
    fn named(alloc: Global, message: &Message) -> Result<MessageMembers, OutOfMemory> {
        let mut words = Vec::new(alloc);
        push_message(&mut words, message)?;
        Ok(MessageMembers {
            name: message_name(message),
            words: text_of(alloc, words.as_slice())?,
            place: None,
            parent: None,
            key: None,
            object: None,
            vpe: None,
            selector: None,
            service: None,
            index: None,
            code: None,
            accepted: None,
            job: None,
        })
    }

    // Adds each word of the message by its name.
    fn put(&mut self, alloc: Global, message: &Message) -> Result<(), OutOfMemory> {
        match message {
            Message::ObtainReq { place, target } => {
                self.place = Some(place_word(alloc, *place)?);
                self.put_target(alloc, target)?;
            }
            Message::ObtainOk {
                parent,
                key,
                object,
            } => self.put_child(alloc, parent, key, object)?,
            Message::ObtainNo { place, code } => {
                self.place = Some(place_word(alloc, *place)?);
                self.code = Some(code_name(*code));
            }
            Message::DelegateReq {
                parent,
                object,
                vpe,
                sel,
            } => self.put_offer(alloc, parent, object, *vpe, *sel)?,
            Message::DelegateNo { parent, code } => {
                self.parent = Some(key_text(alloc, parent)?);
                self.code = Some(code_name(*code));
            }
            Message::Ack { key, yes } => {
                self.key = Some(key_text(alloc, key)?);
                self.accepted = Some(*yes);
            }
            Message::DelegatePrepared { parent, key }
            | Message::Orphan { parent, key }
            | Message::Unlink { parent, key } => self.put_keys(alloc, parent, key)?,
            Message::RevokeReq { key, job } => {
                self.key = Some(key_text(alloc, key)?);
                self.job = Some(*job);
            }
            Message::RevokeDone { job } => self.job = Some(*job),
        }
        Ok(())
    }

    // Adds a parent, its child and what the child gives.
    fn put_child(
        &mut self,
        alloc: Global,
        parent: &Key,
        key: &Key,
        object: &Object,
    ) -> Result<(), OutOfMemory> {
        self.put_keys(alloc, parent, key)?;
        self.object = Some(object_words(alloc, object)?);
        Ok(())
    }

    // Adds what the VPE is to get at the selector: an object, made from the parent.
    fn put_offer(
        &mut self,
        alloc: Global,
        parent: &Key,
        object: &Object,
        vpe: u16,
        sel: u8,
    ) -> Result<(), OutOfMemory> {
        self.parent = Some(key_text(alloc, parent)?);
        self.object = Some(object_words(alloc, object)?);
        self.vpe = Some(vpe);
        self.selector = Some(sel);
        Ok(())
    }

    // Adds a parent and its child.
    fn put_keys(&mut self, alloc: Global, parent: &Key, key: &Key) -> Result<(), OutOfMemory> {
        self.parent = Some(key_text(alloc, parent)?);
        self.key = Some(key_text(alloc, key)?);
        Ok(())
    }

    // Adds what is asked for.
    fn put_target(&mut self, alloc: Global, target: &Target) -> Result<(), OutOfMemory> {
        match target {
            Target::Sel { vpe, sel } => {
                self.vpe = Some(*vpe);
                self.selector = Some(*sel);
            }
            Target::Serv { service } => self.service = Some(key_text(alloc, service)?),
            Target::Offer { service, index } => {
                self.service = Some(key_text(alloc, service)?);
                self.index = Some(*index);
            }
        }
        Ok(())
    }
}
