// Files of sheets and inputs of keys: spelled, damaged, read and answered by the rules, and compared with the library's.
pub(crate) mod asks;
pub(crate) mod damage;
pub(crate) mod key;
pub(crate) mod reader;
pub(crate) mod spelled;
