//! Tower images as lines: the sizes of the levels below, and the client image inside.

use crate::lines::Lines;
use som_image_fields::ImageFault;
use som_model::{List, NoMemory};
use som_show::shown_client;
use som_towerimage::{Level, decode_level};
use std::alloc::Global;

impl Lines {
    /// Adds what a tower image holds, or its first fault.
    pub(crate) fn add_tower(&mut self, alloc: Global, bytes: &List<u8>) -> Result<(), NoMemory> {
        match decode_level(alloc, bytes) {
            Ok(level) => self.add_level(alloc, &level),
            Err(fault) => self.add_image_fault(fault),
        }
    }

    fn add_level(&mut self, alloc: Global, level: &Level) -> Result<(), NoMemory> {
        self.add(if level.client {
            "client over"
        } else {
            "library over"
        })?;
        for size in level.sizes.as_slice() {
            self.add(" ")?;
            self.add_number(usize::from(*size))?;
        }
        self.end()?;
        let lines = shown_client(alloc, &level.program)?;
        for line in lines.as_slice() {
            self.add_line(line)?;
        }
        Ok(())
    }

    // The fault of an image by its number, and its byte.
    fn add_image_fault(&mut self, fault: ImageFault) -> Result<(), NoMemory> {
        match fault {
            ImageFault::Magic { offset } => self.add_fault("image 1 ", offset),
            ImageFault::Version { offset } => self.add_fault("image 2 ", offset),
            ImageFault::Cut { offset } => self.add_fault("image 3 ", offset),
            ImageFault::Tag { offset } => self.add_fault("image 4 ", offset),
            ImageFault::Number { offset } => self.add_fault("image 5 ", offset),
            ImageFault::Trailing { offset } => self.add_fault("image 6 ", offset),
            ImageFault::Nesting { offset } => self.add_fault("image 7 ", offset),
            ImageFault::NoMemory => Err(NoMemory),
        }
    }
}
